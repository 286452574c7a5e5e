// Methods, each from .method to .end method (Jasmin User Guide, "Method Definitions").

ghost use Rattle.std.specs.Prelude.{◌≡◌, ◌≤◌, codes};
ghost use Rattle.jm_bytes.specs.Reading.{TakesAll};
ghost use Rattle.jm_program.specs.Fits.{method_slots};
ghost use Rattle.jm_jasmin_ops.specs.declared.fault.AsmFault.TheVariants.{OutOfMemory};
ghost use Rattle.jm_jasmin.specs.Lines.{Reads, required};
ghost use Rattle.jm_jasmin.specs.Methods.{end_line, with_code, method_body, method, methods};

use crate::body::items_of;
use crate::code::code_of;
use crate::lines::{Lines, is_word_at, line_number};
use crate::method_header::method_line;
use crate::words::with_length;
use jm_jasmin_lex::Token;
use jm_jasmin_ops::AsmFault;
use jm_program::{Code, Method};
use std::alloc::Global;
use std::mem::replace;

// .end method, and its line.
#[tactic(auto, unfolding(crate::specs::Methods::end_line))]
fn end_line(line: &[Token<'_>]) -> Result<usize, AsmFault>
    ensures { TakesAll (λ n. n) result (end_line line.now) }
{
    with_length(line, 2)?;
    if is_word_at(line, 1, "method") {
        Ok(line_number(line))
    } else {
        Err(AsmFault::Syntax(line_number(line)))
    }
}

#[tactic(auto, unfolding(crate::specs::Lines::required, crate::specs::Lines::by_line))]
fn end_at(lines: &mut Lines<'_, '_>) -> Result<usize, AsmFault>
    ensures { Reads (λ n. n) result lines.new (required (codes ".end") end_line lines.old) }
{
    if !lines.begins(".end") {
        return Err(lines.misplaced());
    }
    let line = lines.next_line();
    end_line(line)
}

fn with_code(mut method: Method, code: Option<Code>) -> Method
    ensures { result ≡ with_code method code }
{
    drop(replace(&mut method.code, code));
    method
}

// The lines behind the one of .method.
#[tactic(auto, unfolding(crate::specs::Methods::method_body))]
fn method_body(
    alloc: Global,
    line: usize,
    method: Method,
    lines: &mut Lines<'_, '_>,
) -> Result<Method, AsmFault>
    requires { method_slots method ≤ 255 }
    ensures { Reads (λ m. m) result lines.new (method_body line method lines.old) }
{
    let body = match items_of(alloc, &method, lines) {
        Ok(body) => body,
        Err(fault) => {
            drop(method);
            return Err(fault);
        }
    };
    let end = match end_at(lines) {
        Ok(end) => end,
        Err(fault) => {
            drop(body);
            drop(method);
            return Err(fault);
        }
    };
    match code_of(alloc, &method, line, end, body) {
        Ok(code) => Ok(with_code(method, code)),
        Err(fault) => {
            drop(method);
            Err(fault)
        }
    }
}

#[tactic(auto, unfolding(crate::specs::Methods::method, crate::specs::Lines::by_line))]
fn method_at(
    alloc: Global,
    in_interface: bool,
    lines: &mut Lines<'_, '_>,
) -> Result<Method, AsmFault>
    ensures { Reads (λ m. m) result lines.new (method in_interface lines.old) }
{
    let number = lines.line_number();
    let line = lines.next_line();
    let method = method_line(alloc, in_interface, line)?;
    method_body(alloc, number, method, lines)
}

/// The methods of a class or an interface.
#[tactic(auto, unfolding(crate::specs::Methods::methods), using(crate::proofs::Steps::steps))]
pub fn methods(
    alloc: Global,
    in_interface: bool,
    lines: &mut Lines<'_, '_>,
) -> Result<Vec<Method>, AsmFault>
    ensures { Reads (λ v. v.items) result lines.new (methods in_interface lines.old) }
{
    let count = lines.len();
    let mut methods = Vec::new(alloc);
    for _ in 0..count {
        if !lines.begins(".method") {
            return Ok(methods);
        }
        let method = method_at(alloc, in_interface, lines)?;
        methods.push(method)?;
    }
    Ok(methods)
}
