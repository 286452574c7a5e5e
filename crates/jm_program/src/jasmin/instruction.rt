// Instructions in a line of Jasmin; a switch takes several lines. A target is printed as the
// label L and the number of its instruction.

ghost use Rattle.std.specs.Prelude.{◌≡◌, ◌+◌, Some, min};
ghost use Rattle.std.specs.List.{flat_map};
ghost use Rattle.std.specs.Fmt.{WritesOnOk};
ghost use Rattle.jm_program.specs.Descriptors.{argument_slots};
ghost use Rattle.jm_program.specs.JasminUnits.{string_text};
ghost use Rattle.jm_program.specs.JasminInstructions.{simple_line, target_line, low_line, default_line, table_line, pair_line, lookup_line, plain_line, constant_line, count_line, invoke_line, dimensions_line, type_op_line, instr_line};

use crate::constant::Constant;
use crate::descriptor::MethodDescriptor;
use crate::instruction::{
    Instr, InvokeOp, LookupSwitch, Plain, Simple, SwitchPair, TableSwitch, TypeOp,
};
use crate::jasmin::units::StringUnits;
use crate::reference::{ClassRef, MethodRef};
use std::fmt;
use std::fmt::Display;

#[tactic(auto, unfolding(crate::specs::JasminInstructions::simple_line))]
impl Display for Simple {
    ghost output = { λ op. Some (simple_line op) };

    fn fmt<W: fmt::Write>(&self, f: &mut fmt::Formatter<W>) -> fmt::Result {
        match self {
            Simple::Nop => f.write_str("nop"),
            Simple::Null => f.write_str("aconst_null"),
            Simple::IntConstant(digit) => write!(f, "iconst_{digit}"),
            Simple::LongConstant(digit) => write!(f, "lconst_{digit}"),
            Simple::Load(letter, index) => write!(f, "{letter}load_{index}"),
            Simple::Store(letter, index) => write!(f, "{letter}store_{index}"),
            Simple::Stack(op) => write!(f, "{op}"),
            Simple::Arithmetic(op, letter) => write!(f, "{letter}{op}"),
            Simple::Negate(letter) => write!(f, "{letter}neg"),
            Simple::Shift(op, letter) => write!(f, "{letter}{op}"),
            Simple::Bitwise(op, letter) => write!(f, "{letter}{op}"),
            Simple::Convert(op) => write!(f, "{op}"),
            Simple::CompareLongs => f.write_str("lcmp"),
        }
    }
}

#[tactic(auto, unfolding(crate::specs::JasminInstructions::target_line))]
fn write_target<W: fmt::Write>(f: &mut fmt::Formatter<W>, target: u32) -> fmt::Result
    ensures { WritesOnOk W.write_str_gives f.old result (target_line target) f.new }
{
    write!(f, "\n  L{target}")
}

fn write_targets<W: fmt::Write>(f: &mut fmt::Formatter<W>, targets: &[u32]) -> fmt::Result
    ensures { WritesOnOk W.write_str_gives f.old result (flat_map target_line targets.now) f.new }
{
    for target in targets {
        write_target(f, *target)?;
    }
    Ok(())
}

#[tactic(auto, unfolding(crate::specs::JasminInstructions::low_line))]
fn write_low<W: fmt::Write>(f: &mut fmt::Formatter<W>, low: i32) -> fmt::Result
    ensures { WritesOnOk W.write_str_gives f.old result (low_line low) f.new }
{
    write!(f, "tableswitch {low}")
}

#[tactic(auto, unfolding(crate::specs::JasminInstructions::default_line))]
fn write_default<W: fmt::Write>(f: &mut fmt::Formatter<W>, target: u32) -> fmt::Result
    ensures { WritesOnOk W.write_str_gives f.old result (default_line target) f.new }
{
    write!(f, "\n  default : L{target}")
}

#[tactic(auto, unfolding(crate::specs::JasminInstructions::table_line))]
impl Display for TableSwitch {
    ghost output = { λ t. Some (table_line t) };

    fn fmt<W: fmt::Write>(&self, f: &mut fmt::Formatter<W>) -> fmt::Result {
        write_low(f, self.low)?;
        write_targets(f, self.targets.as_slice())?;
        write_default(f, self.default)
    }
}

#[tactic(auto, unfolding(crate::specs::JasminInstructions::pair_line))]
impl Display for SwitchPair {
    ghost output = { λ p. Some (pair_line p) };

    fn fmt<W: fmt::Write>(&self, f: &mut fmt::Formatter<W>) -> fmt::Result {
        let key = self.key;
        let target = self.target;
        write!(f, "\n  {key} : L{target}")
    }
}

fn write_pairs<W: fmt::Write>(f: &mut fmt::Formatter<W>, pairs: &[SwitchPair]) -> fmt::Result
    ensures { WritesOnOk W.write_str_gives f.old result (flat_map pair_line pairs.now) f.new }
{
    for pair in pairs {
        write!(f, "{pair}")?;
    }
    Ok(())
}

#[tactic(auto, unfolding(crate::specs::JasminInstructions::lookup_line))]
impl Display for LookupSwitch {
    ghost output = { λ l. Some (lookup_line l) };

    fn fmt<W: fmt::Write>(&self, f: &mut fmt::Formatter<W>) -> fmt::Result {
        f.write_str("lookupswitch")?;
        write_pairs(f, self.pairs.as_slice())?;
        write_default(f, self.default)
    }
}

#[tactic(auto, unfolding(crate::specs::JasminInstructions::plain_line))]
impl Display for Plain {
    ghost output = { λ p. Some (plain_line p) };

    fn fmt<W: fmt::Write>(&self, f: &mut fmt::Formatter<W>) -> fmt::Result {
        match self {
            Plain::Simple(simple) => write!(f, "{simple}"),
            Plain::PushByte(number) => write!(f, "bipush {number}"),
            Plain::PushShort(number) => write!(f, "sipush {number}"),
            Plain::Load(letter, index) => write!(f, "{letter}load {index}"),
            Plain::Store(letter, index) => write!(f, "{letter}store {index}"),
            Plain::Increment(index, by) => write!(f, "iinc {index} {by}"),
            Plain::Branch(op, target) => write!(f, "{op} L{target}"),
            Plain::TableSwitch(table) => table.get().fmt(f),
            Plain::LookupSwitch(lookup) => lookup.get().fmt(f),
        }
    }
}

/// The instruction that pushes it: `ldc` or `ldc2_w`.
#[tactic(auto, unfolding(crate::specs::JasminInstructions::constant_line))]
impl Display for Constant {
    ghost output = { λ c. Some (constant_line c) };

    fn fmt<W: fmt::Write>(&self, f: &mut fmt::Formatter<W>) -> fmt::Result {
        match self {
            Constant::Int(number) => write!(f, "ldc {number}"),
            Constant::Long(number) => write!(f, "ldc2_w {number}"),
            Constant::String(units) => {
                let text = StringUnits(units.get().as_slice());
                write!(f, "ldc \"{text}\"")
            }
        }
    }
}

// The argument slots with the receiver's, or 256 for more than 255.
fn slots_with_receiver(descriptor: &MethodDescriptor) -> u16
    ensures { result ≡ min (argument_slots descriptor.now + 1) 256 }
{
    match descriptor.argument_slots() {
        Some(slots) => u16::from(slots) + 1,
        None => 256,
    }
}

#[tactic(auto, unfolding(crate::specs::JasminInstructions::count_line))]
fn write_count<W: fmt::Write>(
    f: &mut fmt::Formatter<W>,
    op: InvokeOp,
    method: &MethodRef,
) -> fmt::Result
    ensures { WritesOnOk W.write_str_gives f.old result (count_line op method.now) f.new }
{
    match op {
        InvokeOp::Interface => {
            let count = slots_with_receiver(&method.descriptor);
            write!(f, " {count}")
        }
        _ => f.write_str(""),
    }
}

#[tactic(auto, unfolding(crate::specs::JasminInstructions::invoke_line))]
fn write_invoke<W: fmt::Write>(
    f: &mut fmt::Formatter<W>,
    op: InvokeOp,
    method: &MethodRef,
) -> fmt::Result
    ensures { WritesOnOk W.write_str_gives f.old result (invoke_line op method.now) f.new }
{
    write!(f, "{op} {method}")?;
    write_count(f, op, method)
}

#[tactic(auto, unfolding(crate::specs::JasminInstructions::dimensions_line))]
fn write_dimensions<W: fmt::Write>(f: &mut fmt::Formatter<W>, op: TypeOp) -> fmt::Result
    ensures { WritesOnOk W.write_str_gives f.old result (dimensions_line op) f.new }
{
    match op {
        TypeOp::NewArrays(dimensions) => write!(f, " {dimensions}"),
        _ => f.write_str(""),
    }
}

#[tactic(auto, unfolding(crate::specs::JasminInstructions::type_op_line))]
fn write_type_op<W: fmt::Write>(
    f: &mut fmt::Formatter<W>,
    op: TypeOp,
    class: &ClassRef,
) -> fmt::Result
    ensures { WritesOnOk W.write_str_gives f.old result (type_op_line op class.now) f.new }
{
    write!(f, "{op} {class}")?;
    write_dimensions(f, op)
}

#[tactic(auto, unfolding(crate::specs::JasminInstructions::instr_line))]
impl Display for Instr {
    ghost output = { λ i. Some (instr_line i) };

    fn fmt<W: fmt::Write>(&self, f: &mut fmt::Formatter<W>) -> fmt::Result {
        match self {
            Instr::Plain(plain) => write!(f, "{plain}"),
            Instr::Array(op) => write!(f, "{op}"),
            Instr::Return(op) => write!(f, "{op}"),
            Instr::Throw => f.write_str("athrow"),
            Instr::Monitor(op) => write!(f, "{op}"),
            Instr::Constant(constant) => write!(f, "{constant}"),
            Instr::Field(op, field) => write!(f, "{op} {}", field.get()),
            Instr::Invoke(op, method) => write_invoke(f, *op, method.get()),
            Instr::New(name) => write!(f, "new {}", name.get()),
            Instr::Type(op, class) => write_type_op(f, *op, class.get()),
        }
    }
}
