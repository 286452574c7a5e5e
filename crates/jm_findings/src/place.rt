// Where an instruction stands.

ghost use Rattle.std.specs.Fmt.{WritesOnOk};
ghost use Rattle.jm_findings.specs.Places.{source_place_text};

use jm_debug::text::{LineText, line_of};
use jm_program::{ClassParts, Method};
use std::fmt;

/// Writes the class and the method, and behind them the line of the instruction of a number, where it
/// is known, or else the number.
#[tactic(auto, unfolding(crate::specs::Places::source_place_text, crate::specs::Places::at_text))]
pub fn write_place<W: fmt::Write>(
    f: &mut fmt::Formatter<W>,
    class: &ClassParts,
    method: &Method,
    at: u64,
) -> fmt::Result
    ensures { WritesOnOk W.write_str_gives f.old result (source_place_text class.now method.now at) f.new }
{
    let class = &class.name;
    let name = &method.name;
    let descriptor = &method.descriptor;
    write!(f, "{class}.{name}{descriptor}")?;
    let line = line_of(method, at);
    match line {
        None => write!(f, ":{at}"),
        Some(_) => {
            let line = LineText(line);
            write!(f, "{line}")
        }
    }
}
