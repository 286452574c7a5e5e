// Which instructions a text can say (Jasmin User Guide, "Instructions").

ghost use Rattle.std.specs.Prelude.{◌≡◌, pos, negsuc};
ghost use Rattle.std.specs.List.{list_all};
ghost use Rattle.jm_disassembler.specs.Names.{is_unit};
ghost use Rattle.jm_disassembler.specs.Said.{no_parenthesis, class_no_parenthesis, field_ref_said, method_ref_said, key_said, is_within, is_int, is_long, is_short, plain_said, constant_said, instr_said};

use crate::names::{is_plain, is_plain_method_type, is_plain_type, is_sayable, is_sayable_class};
use jm_program::{ClassRef, Constant, ElementType, FieldRef, Instr, MethodRef, Plain, SwitchPair};

const PARENTHESIS: u16 = 40;

/// Whether there is no `(` among the code units.
pub fn no_parenthesis(units: &[u16]) -> bool
    ensures { result ≡ no_parenthesis units.now }
{
    units.iter().all(|unit| *unit != PARENTHESIS)
}

fn class_no_parenthesis(class: &ClassRef) -> bool
    ensures { result ≡ class_no_parenthesis class.now }
{
    match class {
        ClassRef::Class(name) => no_parenthesis(name.units()),
        ClassRef::Array(array) => match &array.element {
            ElementType::Base(_) => true,
            ElementType::Class(name) => no_parenthesis(name.units()),
        },
    }
}

fn field_ref_said(field: &FieldRef) -> bool
    ensures { result ≡ field_ref_said field.now }
{
    is_sayable_class(&field.class)
        && is_plain(field.name.units())
        && is_plain_type(&field.descriptor)
}

fn method_ref_said(method: &MethodRef) -> bool
    ensures { result ≡ method_ref_said method.now }
{
    is_sayable_class(&method.class)
        && class_no_parenthesis(&method.class)
        && is_plain(method.name.units())
        && no_parenthesis(method.name.units())
        && is_plain_method_type(&method.descriptor)
}

// ---- numbers: each has the range of its type

fn is_unit(_unit: u16) -> bool
    ensures { result ≡ is_unit _unit }
{
    true
}

/// Whether a number has 16 bits, which one of its type has.
pub fn is_short(_number: u16) -> bool
    ensures { result ≡ is_short _number }
{
    true
}

fn is_byte(_number: i8) -> bool
    ensures { result ≡ is_within (negsuc 127) (pos 127) _number }
{
    true
}

fn is_signed_short(_number: i16) -> bool
    ensures { result ≡ is_within (negsuc 32767) (pos 32767) _number }
{
    true
}

fn is_int(_number: i32) -> bool
    ensures { result ≡ is_int _number }
{
    true
}

fn is_long(_number: i64) -> bool
    ensures { result ≡ is_long _number }
{
    true
}

fn key_said(pair: &SwitchPair) -> bool
    ensures { result ≡ key_said pair.now }
{
    is_int(pair.key)
}

fn keys_said(pairs: &[SwitchPair]) -> bool
    ensures { result ≡ list_all key_said pairs.now }
{
    pairs.iter().all(|pair| key_said(pair))
}

fn are_units(units: &[u16]) -> bool
    ensures { result ≡ list_all is_unit units.now }
{
    units.iter().all(|unit| is_unit(*unit))
}

fn plain_said(plain: &Plain) -> bool
    ensures { result ≡ plain_said plain.now }
{
    match plain {
        Plain::PushByte(number) => is_byte(*number),
        Plain::PushShort(number) => is_signed_short(*number),
        Plain::Load(_, local) => is_short(*local),
        Plain::Store(_, local) => is_short(*local),
        Plain::Increment(local, by) => is_short(*local) && is_signed_short(*by),
        Plain::TableSwitch(table) => is_int(table.get().low),
        Plain::LookupSwitch(lookup) => keys_said(lookup.get().pairs.as_slice()),
        Plain::Simple(_) | Plain::Branch(_, _) => true,
    }
}

/// Whether a constant can be said, which each can.
pub fn constant_said(constant: &Constant) -> bool
    ensures { result ≡ constant_said constant.now }
{
    match constant {
        Constant::Int(number) => is_int(*number),
        Constant::Long(number) => is_long(*number),
        Constant::String(units) => are_units(units.get().as_slice()),
    }
}

/// Whether an instruction can be said: its names can.
pub fn instr_said(instruction: &Instr) -> bool
    ensures { result ≡ instr_said instruction.now }
{
    match instruction {
        Instr::Plain(plain) => plain_said(plain),
        Instr::Constant(constant) => constant_said(constant),
        Instr::Field(_, field) => field_ref_said(field.get()),
        Instr::Invoke(_, method) => method_ref_said(method.get()),
        Instr::New(name) => is_sayable(name.get().units()),
        Instr::Type(_, class) => is_sayable_class(class.get()),
        Instr::Array(_) | Instr::Return(_) | Instr::Throw | Instr::Monitor(_) => true,
    }
}
