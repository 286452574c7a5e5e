// The line of a method: .method [flags] NAMEDESC (Jasmin User Guide, "Method Definitions").

ghost use Rattle.std.specs.Prelude.{◌≡◌, ◌≤◌, ◌==◌, length, IfOk};
ghost use Rattle.std.specs.List.{position};
ghost use Rattle.jm_bytes.specs.Reading.{GivesAll, TakesAll};
ghost use Rattle.jm_program.specs.Fits.{method_slots};
ghost use Rattle.jm_class_format.specs.Members.{own_receiver};
ghost use Rattle.jm_jasmin_ops.specs.declared.fault.AsmFault.TheVariants.{OutOfMemory};
ghost use Rattle.jm_jasmin.specs.MethodHeader.{is_misplaced_abstract, left_out_method, declarable, named_method, parted_method, method_line};

use crate::lines::line_number;
use crate::symbols::{method_name, method_type, position_of, units_at};
use crate::words::{flags_before, with_length_from};
use jm_class_format::LeftOutPart;
use jm_jasmin_lex::Token;
use jm_jasmin_ops::{AsmFault, AsmLeftOut};
use jm_program::{AccessFlags, Method};
use std::alloc::Global;

const PARENTHESIS: u16 = 40;

// Whether an abstract method is no instance method, or an initializer.
#[tactic(auto, unfolding(crate::specs::MethodHeader::is_misplaced_abstract))]
fn is_misplaced_abstract(method: &Method) -> bool
    ensures { result ≡ is_misplaced_abstract method.now }
{
    method.flags.has(AccessFlags::ABSTRACT)
        && (method.flags.has(AccessFlags::STATIC)
            || method.name.is_init()
            || method.name.is_clinit())
}

// What the profile leaves out.
#[tactic(auto, unfolding(crate::specs::MethodHeader::left_out_method))]
fn left_out_method(in_interface: bool, method: &Method) -> Option<LeftOutPart>
    ensures { result ≡ left_out_method in_interface method.now }
{
    if method.flags.has(AccessFlags::STATIC) && method.flags.has(AccessFlags::SYNCHRONIZED) {
        Some(LeftOutPart::StaticSynchronized)
    } else if method.is_finalizer() {
        Some(LeftOutPart::Finalize)
    } else if in_interface
        && !method.flags.has(AccessFlags::ABSTRACT)
        && !method.is_class_initializer()
    {
        Some(LeftOutPart::InterfaceMethod)
    } else {
        None
    }
}

#[tactic(auto, unfolding(crate::specs::MethodHeader::declarable))]
fn declarable(in_interface: bool, line: usize, method: Method) -> Result<Method, AsmFault>
    ensures exact { TakesAll (λ m. m) result (declarable in_interface line method) }
    ensures same { IfOk result (λ m. m ≡ method) }
{
    if is_misplaced_abstract(&method) {
        drop(method);
        return Err(AsmFault::Syntax(line));
    }
    match left_out_method(in_interface, &method) {
        None => Ok(method),
        Some(part) => {
            drop(method);
            Err(AsmFault::LeftOut(AsmLeftOut::Part(part), line))
        }
    }
}

// The slots of the receiver: none in a static method, else one.
fn own_receiver(flags: AccessFlags) -> u8
    ensures { result ≡ own_receiver flags }
{
    if flags.has(AccessFlags::STATIC) { 0 } else { 1 }
}

// The name up to an index and the type from it on.
#[tactic(auto, unfolding(crate::specs::MethodHeader::named_method))]
fn named_method(
    alloc: Global,
    line: usize,
    flags: AccessFlags,
    units: &[u16],
    at: usize,
) -> Result<Method, AsmFault>
    requires { at ≤ length units.now }
    ensures given { GivesAll (λ m. m) OutOfMemory result (named_method line flags.bits units.now at) }
    ensures few { IfOk result (λ m. method_slots m ≤ 255) }
{
    let (name, descriptor) = units.split_at(at);
    let name = method_name(alloc, line, name)?;
    let descriptor = method_type(alloc, line, own_receiver(flags), descriptor)?;
    Ok(Method {
        flags,
        name,
        descriptor,
        code: None,
    })
}

fn parted_method(
    alloc: Global,
    line: usize,
    flags: AccessFlags,
    units: &[u16],
) -> Result<Method, AsmFault>
    ensures given { GivesAll (λ m. m) OutOfMemory result (parted_method line flags.bits units.now (position (λ u. u == 40) units.now)) }
    ensures few { IfOk result (λ m. method_slots m ≤ 255) }
{
    match position_of(units, PARENTHESIS) {
        None => Err(AsmFault::Syntax(line)),
        Some(at) => named_method(alloc, line, flags, units, at),
    }
}

/// A method without its code, whose arguments take at most 255 slots with the receiver.
#[tactic(auto, unfolding(crate::specs::MethodHeader::method_line))]
pub fn method_line(
    alloc: Global,
    in_interface: bool,
    line: &[Token<'_>],
) -> Result<Method, AsmFault>
    ensures given { GivesAll (λ m. m) OutOfMemory result (method_line in_interface line.now) }
    ensures few { IfOk result (λ m. method_slots m ≤ 255) }
{
    with_length_from(line, 2)?;
    let flags = flags_before(0, line, line.len() - 1)?;
    let units = units_at(alloc, line, line.len() - 1)?;
    let method = parted_method(alloc, line_number(line), flags, &units)?;
    declarable(in_interface, line_number(line), method)
}
