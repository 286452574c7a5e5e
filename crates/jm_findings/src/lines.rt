// The lines of all findings.

ghost use Rattle.std.specs.Prelude.{◌≡◌, [], IfOk, map, string_bytes};
ghost use Rattle.jm_builtins.specs.List.{the_builtins};
ghost use Rattle.jm_findings.specs.Lines.{finding_line, finding_lines, lines_after};
ghost use Rattle.jm_findings.specs.Told.{told_of};

use crate::finding_line::FindingLine;
use crate::main_class::{MainClass, is_told};
use jm_builtins::{BuiltIn, builtins};
use jm_linker::{Finding, findings};
use jm_program::Class;
use std::alloc::{AllocError, Global};
use std::fmt::Write;

// The lines of those of some findings that are told, each once where it comes several times in a row.
fn lines_of(
    alloc: Global,
    program: &[Class],
    built_ins: &[BuiltIn],
    found: &[Finding],
    main: MainClass,
) -> Result<String, AllocError>
    requires { built_ins.now ≡ the_builtins }
    ensures { IfOk result (λ text. string_bytes text ≡ lines_after [] (map (finding_line program.now) (told_of main found.now))) }
{
    let mut text = String::new(alloc);
    let mut before = String::new(alloc);
    for finding in found {
        if !is_told(main, finding.site) {
            continue;
        }
        let line = FindingLine {
            program,
            built_ins,
            finding,
        };
        let line = format!(in alloc; "{line}")?;
        if line == before {
            continue;
        }
        write!(text, "{line}\n")?;
        before = line;
    }
    Ok(text)
}

/// All that is refused of a program, a line for each finding, in the order in which linking looks for
/// it, but that its main class has no main where that class is unknown. The one error is that memory
/// is refused.
#[tactic(auto, unfolding(crate::specs::Lines::finding_lines))]
pub fn finding_lines(
    alloc: Global,
    program: &[Class],
    main: MainClass,
) -> Result<String, AllocError>
    ensures { IfOk result (λ text. string_bytes text ≡ finding_lines main program.now) }
{
    let built_ins = builtins(alloc)?;
    let found = findings(alloc, program)?;
    lines_of(alloc, program, built_ins.as_slice(), &found, main)
}
