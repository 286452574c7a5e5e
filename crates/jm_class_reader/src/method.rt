// Methods (JVMS 4.6) with their Code (JVMS 4.7.3).

ghost use Rattle.std.specs.Prelude.{◌≡◌, ◌≤◌, ◌||◌, if◌then◌else◌, Ok, Err, IfOk, is_some};
ghost use Rattle.jm_bytes.specs.Reading.{Gives, Takes, TakesAll};
ghost use Rattle.jm_program.specs.Fits.{method_slots};
ghost use Rattle.jm_program.specs.Flags.{is_abstract};
ghost use Rattle.jm_class_format.specs.declared.read_fault.ReadFault.TheVariants.{OutOfMemory, BadAttribute, Cut};
ghost use Rattle.jm_class_format.specs.CodeAttribute.{whole_info, code_body};
ghost use Rattle.jm_class_format.specs.Members.{method_flags, method_name, own_receiver, declaration, may_have_code, method_attribute_info, method_attribute, method_attributes, method, methods};

use crate::attribute::{attribute_name, info};
use crate::code_attribute::code_body;
use crate::field::{flags, text};
use crate::symbols::{NameKind, Symbols};
use jm_bytes::Reader;
use jm_class_format::{LeftOutPart, ReadFault};
use jm_program::{AccessFlags, Code, Method, MethodDescriptor, Name, is_text};
use std::alloc::Global;
use std::mem::replace;

// ---- flags, name and type

// Native and static synchronized methods are left out; an abstract method is an instance method.
#[tactic(auto, unfolding(jm_class_format::specs::Members::method_flags))]
fn method_flags(reader: &mut Reader<'_>) -> Result<AccessFlags, ReadFault>
    ensures { Takes result reader.new (method_flags.read reader.old) }
{
    let access = flags(reader)?;
    if access.has(AccessFlags::NATIVE) {
        return Err(ReadFault::LeftOut(LeftOutPart::Native));
    }
    if access.has(AccessFlags::STATIC) && access.has(AccessFlags::SYNCHRONIZED) {
        return Err(ReadFault::LeftOut(LeftOutPart::StaticSynchronized));
    }
    if access.has(AccessFlags::ABSTRACT) && access.has(AccessFlags::STATIC) {
        return Err(ReadFault::BadAttribute);
    }
    Ok(access)
}

// An abstract method is no initializer.
#[tactic(auto, unfolding(jm_class_format::specs::Members::method_name))]
fn method_name(
    alloc: Global,
    symbols: &mut Symbols<'_>,
    access: AccessFlags,
    reader: &mut Reader<'_>,
) -> Result<Name, ReadFault>
    ensures given { Gives (λ name. name) OutOfMemory result reader.new ((method_name symbols.old access).read reader.old) }
    ensures same { symbols.new ≡ symbols.old }
{
    let text = text(symbols.pool(), reader)?;
    let name = symbols.name(alloc, NameKind::Method, text)?;
    if access.has(AccessFlags::ABSTRACT) && (name.is_init() || name.is_clinit()) {
        return Err(ReadFault::BadAttribute);
    }
    Ok(name)
}

// The slots of the receiver: none in a static method, else one.
fn own_receiver(access: AccessFlags) -> u8
    ensures { result ≡ own_receiver access }
{
    if access.has(AccessFlags::STATIC) {
        0
    } else {
        1
    }
}

// A method's flags, name and type, without code; `finalize()V` is left out.
#[tactic(auto, unfolding(jm_class_format::specs::Members::declaration))]
fn declaration(
    alloc: Global,
    symbols: &mut Symbols<'_>,
    reader: &mut Reader<'_>,
) -> Result<Method, ReadFault>
    ensures given { Gives (λ method. method) OutOfMemory result reader.new ((declaration symbols.old).read reader.old) }
    ensures same { symbols.new ≡ symbols.old }
    ensures few { IfOk result (λ method. method_slots method ≤ 255) }
{
    let flags = method_flags(reader)?;
    let name = method_name(alloc, symbols, flags, reader)?;
    let text = match text(symbols.pool(), reader) {
        Ok(text) => text,
        Err(fault) => {
            drop(name);
            return Err(fault);
        }
    };
    let descriptor = match symbols.method_type(alloc, own_receiver(flags), text) {
        Ok(descriptor) => descriptor,
        Err(fault) => {
            drop(name);
            return Err(fault);
        }
    };
    let method = Method {
        flags,
        name,
        descriptor,
        code: None,
    };
    if method.is_finalizer() {
        drop(method);
        return Err(ReadFault::LeftOut(LeftOutPart::Finalize));
    }
    Ok(method)
}

// ---- its code

// Whether a Code may stand in a method: an abstract method has none, nor a second, and in an
// interface it is left out but in `<clinit>()V`.
#[tactic(auto, unfolding(jm_class_format::specs::Members::may_have_code))]
fn may_have_code(
    in_interface: bool,
    method: &Method,
    found: &Option<Code>,
    reader: &mut Reader<'_>,
) -> Result<(), ReadFault>
    ensures { Takes result reader.new ((may_have_code in_interface method.now found.now).read reader.old) }
{
    if found.is_some() || method.flags.has(AccessFlags::ABSTRACT) {
        return Err(ReadFault::BadAttribute);
    }
    if in_interface && !method.is_class_initializer() {
        return Err(ReadFault::LeftOut(LeftOutPart::InterfaceMethod));
    }
    Ok(())
}

// The code that all of an attribute's bytes spell, after their length.
#[tactic(auto, using(crate::proofs::Attributes::whole_info_steps))]
fn whole_code(
    alloc: Global,
    symbols: &mut Symbols<'_>,
    slots: u16,
    reader: &mut Reader<'_>,
) -> Result<Code, ReadFault>
    ensures given { Gives (λ code. code) OutOfMemory result reader.new ((whole_info Cut (code_body symbols.old slots)).read reader.old) }
    ensures same { symbols.new ≡ symbols.old }
{
    let bytes = info(ReadFault::Cut, reader)?;
    let mut inside = Reader::new(bytes);
    let code = code_body(alloc, symbols, slots, &mut inside)?;
    if !inside.is_empty() {
        return Err(ReadFault::BadAttribute);
    }
    Ok(code)
}

// The slots of the arguments, the receiver included.
fn slots_of(method: &Method) -> u16
    requires { method_slots method.now ≤ 255 }
    ensures { result ≡ method_slots method.now }
{
    u16::from(method.argument_slots().unwrap())
}

// The one Code, or what was found before where the attribute is skipped.
#[tactic(auto, unfolding(jm_class_format::specs::Members::method_attribute_info))]
fn method_attribute_info(
    alloc: Global,
    symbols: &mut Symbols<'_>,
    in_interface: bool,
    method: &Method,
    found: Option<Code>,
    is_code: bool,
    reader: &mut Reader<'_>,
) -> Result<Option<Code>, ReadFault>
    requires { method_slots method.now ≤ 255 }
    ensures given { Gives (λ found. found) OutOfMemory result reader.new ((method_attribute_info symbols.old in_interface method.now found is_code).read reader.old) }
    ensures same { symbols.new ≡ symbols.old }
{
    if is_code {
        let allowed = may_have_code(in_interface, method, &found, reader);
        drop(found);
        allowed?;
        let code = whole_code(alloc, symbols, slots_of(method), reader)?;
        Ok(Some(code))
    } else {
        match info(ReadFault::Cut, reader) {
            Ok(_) => Ok(found),
            Err(fault) => {
                drop(found);
                Err(fault)
            }
        }
    }
}

// One attribute more.
#[tactic(auto, unfolding(jm_class_format::specs::Members::method_attribute))]
fn method_attribute(
    alloc: Global,
    symbols: &mut Symbols<'_>,
    in_interface: bool,
    method: &Method,
    found: Option<Code>,
    reader: &mut Reader<'_>,
) -> Result<Option<Code>, ReadFault>
    requires { method_slots method.now ≤ 255 }
    ensures given { Gives (λ found. found) OutOfMemory result reader.new ((method_attribute symbols.old in_interface method.now found).read reader.old) }
    ensures same { symbols.new ≡ symbols.old }
{
    let name = attribute_name(ReadFault::Cut, symbols.pool(), reader)?;
    let is_code = is_text(name, b"Code");
    method_attribute_info(alloc, symbols, in_interface, method, found, is_code, reader)
}

// The method's code, its attributes' count first.
#[tactic(auto, unfolding(jm_class_format::specs::Members::method_attributes), using(jm_bytes::proofs::Loops::repeated_steps))]
fn method_attributes(
    alloc: Global,
    symbols: &mut Symbols<'_>,
    in_interface: bool,
    method: &Method,
    reader: &mut Reader<'_>,
) -> Result<Option<Code>, ReadFault>
    requires { method_slots method.now ≤ 255 }
    ensures given { Gives (λ found. found) OutOfMemory result reader.new ((method_attributes symbols.old in_interface method.now).read reader.old) }
    ensures same { symbols.new ≡ symbols.old }
{
    let count = reader.u2()?;
    let mut found = None;
    for _ in 0..count {
        found = method_attribute(alloc, symbols, in_interface, method, found, reader)?;
    }
    Ok(found)
}

// ---- the method

// A declared method with its code, which one that is not abstract has.
fn with_code(mut method: Method, code: Option<Code>) -> Result<Method, ReadFault>
    ensures { TakesAll (λ method. method) result (if is_some code || is_abstract method.flags then Ok (record method { code = code }) else Err BadAttribute) }
{
    if code.is_none() && !method.flags.has(AccessFlags::ABSTRACT) {
        drop(method);
        return Err(ReadFault::BadAttribute);
    }
    drop(replace(&mut method.code, code));
    Ok(method)
}

// A method of a class or of an interface; one that is not abstract has code.
#[tactic(auto, unfolding(jm_class_format::specs::Members::method))]
fn method(
    alloc: Global,
    symbols: &mut Symbols<'_>,
    in_interface: bool,
    reader: &mut Reader<'_>,
) -> Result<Method, ReadFault>
    ensures given { Gives (λ method. method) OutOfMemory result reader.new ((method symbols.old in_interface).read reader.old) }
    ensures same { symbols.new ≡ symbols.old }
{
    let method = declaration(alloc, symbols, reader)?;
    match method_attributes(alloc, symbols, in_interface, &method, reader) {
        Ok(code) => with_code(method, code),
        Err(fault) => {
            drop(method);
            Err(fault)
        }
    }
}

/// The methods of a class or of an interface, their count first.
#[tactic(auto, unfolding(jm_class_format::specs::Members::methods), using(jm_bytes::proofs::Loops::many_steps))]
pub fn methods(
    alloc: Global,
    symbols: &mut Symbols<'_>,
    in_interface: bool,
    reader: &mut Reader<'_>,
) -> Result<Vec<Method>, ReadFault>
    ensures given { Gives (λ v. v.items) OutOfMemory result reader.new ((methods symbols.old in_interface).read reader.old) }
    ensures same { symbols.new ≡ symbols.old }
{
    let count = reader.u2()?;
    let mut methods = Vec::new(alloc);
    for _ in 0..count {
        let method = method(alloc, symbols, in_interface, reader)?;
        methods.push(method)?;
    }
    Ok(methods)
}
