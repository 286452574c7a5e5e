// The class that a program's file holds.

ghost use Rattle.std.specs.Prelude.{◌≡◌, ◌≤◌, length, true, false, IfOk, MatchResult};
ghost use Rattle.std.specs.Str.{is_utf8};
ghost use Rattle.std.specs.Str.Lossy.{utf8_valid_len};
ghost use Rattle.jm_bytes.specs.Reading.{GivesAll};
ghost use Rattle.jm_class_format.specs.ClassFile.{Spells};
ghost use Rattle.jm_jasmin_ops.specs.declared.fault.AsmFault.TheVariants as asm;
ghost use Rattle.jm_execute.specs.ProgramFiles.{is_text_name, line_at, text_class};
ghost use Rattle.jm_execute.specs.Refusals.{Gives};
ghost use Rattle.jm_execute.specs.Verdicts.{class_of, denoted_class, held_class, held_in_text, writable_class, written_class};

use crate::files::bytes_of;
use crate::refusal::{Obstacle, Refusal};
use jm_class_reader::{ReadFault, read_class};
use jm_class_writer::{WriteFault, write_class};
use jm_jasmin::{AsmFault, assemble};
use jm_job::InputFile;
use jm_program::Class;
use std::alloc::Global;

// Whether a file of this name holds an assembler text.
fn is_text_name(name: &str) -> bool
    ensures { result ≡ is_text_name name.now }
{
    name.as_bytes().ends_with(b".j")
}

// The line, counted from 1, in which the byte at an offset stands.
fn line_at(bytes: &[u8], at: usize) -> usize
    requires { at ≤ length bytes.now }
    ensures { result ≡ line_at bytes.now at }
{
    1 + bytes[..at].iter().filter(|byte| **byte == b'\n').count()
}

// The text that bytes spell in UTF-8.
fn text_of(bytes: &[u8]) -> Result<&str, AsmFault>
    ensures { MatchResult result
        (λ text. (text.now ≡ bytes.now) × (is_utf8 bytes.now ≡ true))
        (λ fault. (fault ≡ asm.BadToken (line_at bytes.now (utf8_valid_len bytes.now))) × (is_utf8 bytes.now ≡ false)) }
{
    match str::from_utf8(bytes) {
        Ok(text) => Ok(text),
        Err(error) => Err(AsmFault::BadToken(line_at(bytes, error.valid_up_to()))),
    }
}

// The class that the bytes of an assembler text denote.
#[tactic(auto, unfolding(crate::specs::ProgramFiles::text_class))]
fn assembled(alloc: Global, bytes: &[u8]) -> Result<Class, AsmFault>
    ensures { GivesAll (λ class. class) asm.OutOfMemory result (text_class bytes.now) }
{
    let text = text_of(bytes)?;
    assemble(alloc, text)
}

/// The class that the bytes of an assembler text of this name denote.
pub fn class_in_text<'a>(alloc: Global, file: &'a str, bytes: &[u8]) -> Result<Class, Obstacle<'a>>
    ensures { Gives result (denoted_class file.now bytes.now) (λ class. class) }
{
    match assembled(alloc, bytes) {
        Ok(class) => Ok(class),
        Err(AsmFault::OutOfMemory) => Err(Obstacle::OutOfMemory),
        Err(fault) => Err(Obstacle::Refused(Refusal::BadText(file, fault))),
    }
}

/// The bytes that are written for the class of the text of this name.
pub(crate) fn written_class<'a>(
    alloc: Global,
    file: &'a str,
    class: &Class,
) -> Result<Vec<u8>, Obstacle<'a>>
    ensures written { Gives result (written_class file.now class.now) (λ bytes. bytes.items) }
    ensures spelled { IfOk result (λ bytes. Spells bytes.items class.now) }
{
    match write_class(alloc, class) {
        Ok(bytes) => Ok(bytes),
        Err(WriteFault::OutOfMemory) => Err(Obstacle::OutOfMemory),
        Err(fault) => Err(Obstacle::Refused(Refusal::Unwritten(file, fault))),
    }
}

// The class of the text of this name, where a class file can hold it.
#[tactic(auto, using(crate::proofs::Chains::hindered))]
fn writable_class<'a>(alloc: Global, file: &'a str, class: Class) -> Result<Class, Obstacle<'a>>
    ensures { Gives result (writable_class file.now class) (λ class. class) }
{
    match written_class(alloc, file, &class) {
        Ok(_) => Ok(class),
        Err(obstacle) => Err(obstacle),
    }
}

// The class that the bytes of an assembler text of this name hold.
fn held_in_text<'a>(alloc: Global, file: &'a str, bytes: &[u8]) -> Result<Class, Obstacle<'a>>
    ensures { Gives result (held_in_text file.now bytes.now) (λ class. class) }
{
    match class_in_text(alloc, file, bytes) {
        Ok(class) => writable_class(alloc, file, class),
        Err(obstacle) => Err(obstacle),
    }
}

/// The class that a file of this name with these bytes holds. A text whose class passes a limit of
/// class files holds none.
pub fn class_in_file<'a>(alloc: Global, file: &'a str, bytes: &[u8]) -> Result<Class, Obstacle<'a>>
    ensures { Gives result (held_class file.now bytes.now) (λ class. class) }
{
    if is_text_name(file) {
        return held_in_text(alloc, file, bytes);
    }
    match read_class(alloc, bytes) {
        Ok(class) => Ok(class),
        Err(ReadFault::OutOfMemory) => Err(Obstacle::OutOfMemory),
        Err(fault) => Err(Obstacle::Refused(Refusal::BadClass(file, fault))),
    }
}

/// The class that a file of a program holds.
#[tactic(auto, unfolding(crate::specs::Verdicts::class_of))]
pub fn class_of(alloc: Global, file: &InputFile) -> Result<Class, Obstacle<'_>>
    ensures { Gives result (class_of file.now) (λ class. class) }
{
    let bytes = bytes_of(file)?;
    class_in_file(alloc, &file.name, bytes)
}
