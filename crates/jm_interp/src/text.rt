// The text that a print stream writes.

ghost use Rattle.std.specs.Prelude.{◌≡◌, ◌++◌, MatchResult};
ghost use Rattle.jm_interp.specs.Characters.{Continues, Said};
ghost use Rattle.jm_interp.specs.Printing.{string_in, plain_bytes, line_bytes, SaysLine, TextLies, TextGives, TextHalts};

use crate::characters::write_char;
use crate::print_operands::Text;
use crate::strings::write_string;
use itoa::Buffer;
use jm_heap::Heap;
use jm_linked::PrintMethod;
use jm_state::Halt;
use jm_values::Place;
use std::alloc::AllocError;

// The String that is the argument; none for null, and where it is a number.
fn string_in(text: &Text) -> Option<Place>
    ensures { result ≡ string_in text.now }
{
    match text {
        Text::String(string) => *string,
        Text::Int(_) | Text::Long(_) | Text::Char(_) | Text::Nothing => None,
    }
}

// Writes an argument that is no String. The one error is that memory was refused.
fn write_plain(output: &mut Vec<u8>, text: Text) -> Result<(), AllocError>
    ensures { MatchResult result (λ done. output.new.items ≡ output.old.items ++ plain_bytes text) (λ e. Continues output.old.items output.new.items) }
{
    let mut buffer = Buffer::new();
    match text {
        Text::Int(n) => output.extend_from_slice(buffer.format(n).as_bytes()),
        Text::Long(n) => output.extend_from_slice(buffer.format(n).as_bytes()),
        Text::Char(n) => write_char(output, n),
        Text::String(_) => output.extend_from_slice(b"null"),
        Text::Nothing => Ok(()),
    }
}

// Writes the argument: a null String is `null`.
fn write_text<H: Heap>(output: &mut Vec<u8>, heap: &H, text: Text) -> Result<(), Halt>
    requires { TextLies (H.content heap.now) (string_in text) }
    ensures { MatchResult result
        (λ done. Said output.old.items output.new.items (TextGives (H.content heap.now) text (string_in text)))
        (λ halt. TextHalts (H.content heap.now) (string_in text) halt × Continues output.old.items output.new.items) }
{
    match string_in(&text) {
        Some(string) => write_string(output, heap, string),
        None => match write_plain(output, text) {
            Ok(()) => Ok(()),
            Err(_) => Err(Halt::OutOfMemory),
        },
    }
}

// Writes the end of the line, where a method ends one. The one error is that memory was refused.
fn write_line_end(output: &mut Vec<u8>, method: PrintMethod) -> Result<(), AllocError>
    ensures { MatchResult result (λ done. output.new.items ≡ output.old.items ++ line_bytes method) (λ e. output.new.items ≡ output.old.items) }
{
    match method {
        PrintMethod::Print(_) => {}
        PrintMethod::Println(_) | PrintMethod::EndLine => {
            output.push(b'\n')?;
        }
    }
    Ok(())
}

// Writes the argument and the end of the line.
fn write_line<H: Heap>(
    output: &mut Vec<u8>,
    heap: &H,
    text: Text,
    method: PrintMethod,
) -> Result<(), Halt>
    requires { TextLies (H.content heap.now) (string_in text) }
    ensures { MatchResult result
        (λ done. SaysLine (H.content heap.now) text method output.old.items output.new.items)
        (λ halt. TextHalts (H.content heap.now) (string_in text) halt × Continues output.old.items output.new.items) }
{
    match write_text(output, heap, text) {
        Ok(()) => match write_line_end(output, method) {
            Ok(()) => Ok(()),
            Err(_) => Err(Halt::OutOfMemory),
        },
        Err(halt) => Err(halt),
    }
}

/// Writes the argument of a method of a print stream behind the output, and the end of the line where
/// the method ends one; the output is as it was where there is an error. `WrongKind`: an object is no
/// String. OutOfMemory: a growth was refused.
pub(crate) fn print_text<H: Heap>(
    output: &mut Vec<u8>,
    heap: &H,
    text: Text,
    method: PrintMethod,
) -> Result<(), Halt>
    requires { TextLies (H.content heap.now) (string_in text) }
    ensures { MatchResult result
        (λ done. SaysLine (H.content heap.now) text method output.old.items output.new.items)
        (λ halt. TextHalts (H.content heap.now) (string_in text) halt × (output.new.items ≡ output.old.items)) }
{
    let length = output.len();
    match write_line(output, heap, text, method) {
        Ok(()) => Ok(()),
        Err(halt) => {
            output.truncate(length);
            Err(halt)
        }
    }
}
