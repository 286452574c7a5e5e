// The class that a text denotes (Jasmin User Guide).

ghost use Rattle.std.specs.List.{position};
ghost use Rattle.std.specs.Prelude.{◌≡◌, ◌==◌, ◌++◌, ◌∷◌, [], IfOk, Ok};
ghost use Rattle.jm_bytes.specs.Reading.{GivesAll, TakesAll};
ghost use Rattle.jm_program.specs.Fits.{Fits};
ghost use Rattle.jm_program.specs.declared.class.ClassParts.{ClassParts};
ghost use Rattle.jm_jasmin_ops.specs.declared.fault.AsmFault.TheVariants.{OutOfMemory};
ghost use Rattle.jm_jasmin.specs.Text.{end_of_text, with_end, parts_of, text_ends, class_of, fault_at_end, last_line, before_line, read_whole, read_up_to, denoted};

use crate::field::fields;
use crate::header::{Header, read_header};
use crate::lines::Lines;
use crate::method::methods;
use jm_jasmin_lex::{Token, TokenKind, lexed};
use jm_jasmin_ops::AsmFault;
use jm_program::{AccessFlags, Class, ClassParts, Field, Method, Sequence};
use std::alloc::{AllocError, Global};

// ---- the lines of a class

fn parts_of(header: Header, fields: Vec<Field>, methods: Vec<Method>) -> ClassParts
    ensures { result ≡ parts_of header fields.items methods.items }
{
    ClassParts {
        version: header.version,
        flags: header.flags,
        name: header.name,
        superclass: Some(header.superclass),
        interfaces: header.interfaces,
        fields: Sequence::new(fields),
        methods: Sequence::new(methods),
        source_file: header.source_file,
    }
}

// Nothing follows the methods.
#[tactic(auto, unfolding(crate::specs::Text::text_ends))]
fn text_ends(lines: &Lines<'_, '_>) -> Result<(), AsmFault>
    ensures { TakesAll (λ x. x) result (text_ends lines.now) }
{
    if lines.line_number() == 0 {
        Ok(())
    } else {
        Err(lines.misplaced())
    }
}

// The class of the lines up to the end of the text.
#[tactic(auto, unfolding(crate::specs::Text::class_of))]
fn class_of(alloc: Global, tokens: &[Token<'_>]) -> Result<ClassParts, AsmFault>
    ensures given { GivesAll (λ c. c) OutOfMemory result (class_of tokens.now) }
    ensures fits { IfOk result Fits }
{
    let mut lines = Lines::new(tokens);
    let header = read_header(alloc, &mut lines)?;
    let in_interface = header.flags.has(AccessFlags::INTERFACE);
    let fields = match fields(alloc, &mut lines) {
        Ok(fields) => fields,
        Err(fault) => {
            drop(header);
            return Err(fault);
        }
    };
    let methods = match methods(alloc, in_interface, &mut lines) {
        Ok(methods) => methods,
        Err(fault) => {
            drop(header);
            drop(fields);
            return Err(fault);
        }
    };
    let parts = parts_of(header, fields, methods);
    match text_ends(&lines) {
        Ok(()) => Ok(parts),
        Err(fault) => {
            drop(parts);
            Err(fault)
        }
    }
}

// ---- the end of the text

// A fault at the end of the text as it is answered.
#[tactic(auto, unfolding(crate::specs::Text::fault_at_end))]
fn fault_at_end(end: AsmFault, fault: AsmFault) -> AsmFault
    ensures { result ≡ fault_at_end end fault }
{
    match fault.line() {
        Some(line) if line == 0 => end,
        _ => fault,
    }
}

#[tactic(auto, unfolding(crate::specs::Text::last_line))]
fn last_line(tokens: &[Token<'_>]) -> usize
    ensures { result ≡ last_line tokens.now }
{
    match tokens.last() {
        None => 1,
        Some(token) => token.line(),
    }
}

fn with_end_of_text<'a>(mut tokens: Vec<Token<'a>>) -> Result<Vec<Token<'a>>, AllocError>
    ensures { IfOk result (λ v. v.items ≡ tokens.entry.items ++ end_of_text ∷ []) }
{
    tokens.push(Token::new(TokenKind::Text, "", 0, 0))?;
    Ok(tokens)
}

#[tactic(auto, unfolding(crate::specs::Text::with_end), using(crate::proofs::Ends::end_seen))]
fn closed(alloc: Global, end: AsmFault, tokens: &[Token<'_>]) -> Result<ClassParts, AsmFault>
    requires { ¬ (end ≡ OutOfMemory) }
    ensures given { GivesAll (λ c. c) OutOfMemory result (with_end end (class_of tokens.now)) }
    ensures fits { IfOk result Fits }
{
    match class_of(alloc, tokens) {
        Ok(parts) => Ok(parts),
        Err(fault) => Err(fault_at_end(end, fault)),
    }
}

// The class of a text whose lines are all of words and strings.
fn read_whole(alloc: Global, tokens: Vec<Token<'_>>) -> Result<ClassParts, AsmFault>
    ensures given { GivesAll (λ c. c) OutOfMemory result (read_whole tokens.entry.items) }
    ensures fits { IfOk result Fits }
{
    let end = AsmFault::Syntax(last_line(&tokens));
    let tokens = with_end_of_text(tokens)?;
    closed(alloc, end, &tokens)
}

// The fault of a text whose first bad line is this one.
fn fault_up_to(alloc: Global, line: usize, tokens: Vec<Token<'_>>) -> Result<ClassParts, AsmFault>
    ensures given { GivesAll (λ c. c) OutOfMemory result (read_up_to line tokens.entry.items) }
    ensures fits { IfOk result Fits }
{
    let tokens = before_line(line, tokens);
    let tokens = with_end_of_text(tokens)?;
    closed(alloc, AsmFault::BadToken(line), &tokens)?;
    Err(AsmFault::BadToken(line))
}

// The place of the first token of a line.
fn place_of_line(tokens: &[Token<'_>], line: usize) -> Option<usize>
    ensures { result ≡ position (λ t. t.line == line) tokens.now }
{
    tokens.iter().position(|token| token.line() == line)
}

// The tokens before a line.
#[tactic(auto, unfolding(crate::specs::Text::before_line))]
fn before_line<'a>(line: usize, mut tokens: Vec<Token<'a>>) -> Vec<Token<'a>>
    ensures { result.items ≡ before_line line tokens.entry.items }
{
    match place_of_line(&tokens, line) {
        None => tokens,
        Some(at) => {
            tokens.truncate(at);
            tokens
        }
    }
}

#[tactic(auto, unfolding(crate::specs::Text::denoted))]
fn parts_in(alloc: Global, text: &str) -> Result<ClassParts, AsmFault>
    ensures given { GivesAll (λ c. c) OutOfMemory result (denoted text.now) }
    ensures fits { IfOk result Fits }
{
    let lexed = lexed(alloc, text)?;
    match lexed.bad_line() {
        None => read_whole(alloc, lexed.into_tokens()),
        Some(line) => fault_up_to(alloc, line, lexed.into_tokens()),
    }
}

/// The class that a text in the Jasmin language denotes (Jasmin User Guide). It takes time and
/// memory in the text.
///
/// # Errors
/// The first fault in the order of the lines, with its line, counted from 1: 1 and 2 for a type
/// and a name that are none, 40 for a line that is not of words and strings, 41 for a line that
/// the grammar does not have there, or whose text ends too early, 42 for a label that its method
/// has already, 45 for a number or a count that does not fit its place, 46 for what is left out,
/// 47 for what is refused for now; and at the end of a method, in this order, 45 for locals that
/// do not hold the arguments, 45 for an empty range, 43 for the use of a label that the method does
/// not have, and 45 for no instruction. [`AsmFault::OutOfMemory`] where a growth was refused.
pub fn assemble(alloc: Global, text: &str) -> Result<Class, AsmFault>
    ensures given { GivesAll (λ c. c) OutOfMemory result (denoted text.now) }
    ensures fits { (c : ClassParts) → denoted text.now ≡ Ok c → Fits c }
{
    let parts = parts_in(alloc, text)?;
    Ok(Class::new(parts))
}
