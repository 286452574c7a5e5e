// The assembler text of a class (Jasmin User Guide).

ghost use Rattle.std.specs.Prelude.{◌≡◌, IfOk, None, Ok};
ghost use Rattle.jm_program.specs.declared.class.ClassParts.{ClassParts};
ghost use Rattle.jm_jasmin.specs.Text.{denoted};
ghost use Rattle.jm_disassembler.specs.Texts.{class_text};
ghost use Rattle.jm_disassembler.specs.Unsaid.{first_unsaid};
ghost use Rattle.jm_disassembler.specs.Disassembly.{Disassembles};

use crate::fault::DisassemblyFault;
use crate::first::first_of;
use crate::header::{
    write_declaration, write_interfaces, write_source, write_super, write_version,
};
use crate::mark::write_class_mark;
use crate::member::{write_fields, write_methods};
use crate::unsaid::Unsaid;
use jm_program::{Class, ClassParts};
use std::alloc::{AllocError, Global};

#[tactic(auto, unfolding(crate::specs::Texts::class_text, crate::specs::Texts::marked_declaration))]
fn text_of(alloc: Global, commented: bool, class: &ClassParts) -> Result<String, AllocError>
    ensures { IfOk result (λ text. text.bytes.items ≡ class_text commented class.now) }
{
    let mut text = String::new(alloc);
    write_version(&mut text, class.version)?;
    write_source(alloc, &mut text, &class.source_file)?;
    write_class_mark(&mut text, class)?;
    write_declaration(&mut text, commented, class)?;
    write_super(&mut text, &class.superclass)?;
    write_interfaces(&mut text, class.interfaces.as_slice())?;
    write_fields(&mut text, commented, class.fields.as_slice())?;
    write_methods(alloc, &mut text, commented, class.methods.as_slice())?;
    Ok(text)
}

/// The first part of a class that its text cannot say, in the order of the text, if there is one.
pub fn first_unsaid(class: &Class) -> Option<Unsaid>
    ensures { result ≡ first_unsaid class.now }
{
    first_of(class.parts())
}

/// The text of a class: it denotes that very class, so to assemble it gives the class back, want
/// of memory apart. It takes time and memory in the class.
///
/// # Errors
/// [`DisassemblyFault::NoText`] with the first part that its text cannot say, exactly where there is
/// one: a name or a type with a blank, a control character, a `;`, a `\` or half of a surrogate
/// pair, or with a `"` where its word begins; a method's name or its class with a `(`; a field
/// without a value by the name `=`; a handler of a class by the name `all`; a flag that has no
/// word; line numbers that do not follow the instructions; and java/lang/Object, which has no
/// superclass. [`DisassemblyFault::OutOfMemory`] where a growth was refused.
pub fn disassemble(alloc: Global, class: &Class) -> Result<String, DisassemblyFault>
    ensures { Disassembles (λ text. text.bytes.items) result class.now }
{
    let parts = class.parts();
    let minor = parts.version.minor;
    prove!(minor <= 65535);
    match first_of(parts) {
        Some(part) => Err(DisassemblyFault::NoText(part)),
        None => {
            let text = text_of(alloc, false, parts)?;
            Ok(text)
        }
    }
}

/// The text of a class, whether or not an assembler can read it, with comments or without them. A
/// comment is the number of an instruction behind it, or the flags of the class or a member that no
/// word says. A part that its text cannot say is printed as it is, and a line `; 90 NoText(..)`, also
/// where no comments are wanted, marks the first one of each member, and of the lines before the
/// fields. Where there is no such part the text denotes that very class. It takes time and memory in
/// the class.
///
/// # Errors
/// [`AllocError`] where a growth was refused.
pub fn class_text(alloc: Global, commented: bool, class: &Class) -> Result<String, AllocError>
    ensures text { IfOk result (λ text. text.bytes.items ≡ class_text commented class.now) }
    ensures denotes { first_unsaid class.now ≡ None → denoted (class_text commented class.now) ≡ Ok class.now }
{
    let parts = class.parts();
    let minor = parts.version.minor;
    prove!(minor <= 65535);
    text_of(alloc, commented, parts)
}
