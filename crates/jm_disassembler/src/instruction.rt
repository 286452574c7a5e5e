// The lines of an instruction, its operands in one column (Jasmin User Guide, "Instructions").

ghost use Rattle.std.specs.Prelude.{◌≡◌, ◌+◌, ◌++◌, OnOk, codes, min};
ghost use Rattle.std.specs.List.{flat_map};
ghost use Rattle.std.specs.Fmt.{signed_decimal};
ghost use Rattle.jm_program.specs.Descriptors.{argument_slots};
ghost use Rattle.jm_program.specs.JasminTypes.{class_line, method_ref_line};
ghost use Rattle.jm_program.specs.JasminInstructions.{dimensions_line};
ghost use Rattle.jm_program.specs.Mnemonics.{branch_mnemonic, field_mnemonic, invoke_mnemonic, type_mnemonic};
ghost use Rattle.jm_disassembler.specs.Instructions.{front, target_row, pair_row, table_rows, lookup_rows, plain_text, constant_text, count_text, instr_text, rows_text};

use jm_program::{
    ArrayOp, Branch, ClassRef, Comparison, Constant, Equality, FieldOp, Instr, InvokeOp,
    LookupSwitch, MethodDescriptor, MethodRef, OperandType, Plain, StringUnits, SwitchPair,
    TableSwitch, TypeOp,
};
use std::alloc::AllocError;
use std::fmt::Write;

// ---- mnemonics, with blanks up to the column of the operands

#[tactic(auto, unfolding(jm_program::specs::Mnemonics::branch_mnemonic, jm_program::specs::Mnemonics::comparison_name, jm_program::specs::Mnemonics::equality_name, jm_program::specs::Mnemonics::null_mnemonic))]
fn branch_front(op: Branch) -> &'static str
    ensures { result.now ≡ front (branch_mnemonic op) }
{
    match op {
        Branch::If(Comparison::Equal) => "ifeq            ",
        Branch::If(Comparison::NotEqual) => "ifne            ",
        Branch::If(Comparison::Less) => "iflt            ",
        Branch::If(Comparison::GreaterOrEqual) => "ifge            ",
        Branch::If(Comparison::Greater) => "ifgt            ",
        Branch::If(Comparison::LessOrEqual) => "ifle            ",
        Branch::IfInts(Comparison::Equal) => "if_icmpeq       ",
        Branch::IfInts(Comparison::NotEqual) => "if_icmpne       ",
        Branch::IfInts(Comparison::Less) => "if_icmplt       ",
        Branch::IfInts(Comparison::GreaterOrEqual) => "if_icmpge       ",
        Branch::IfInts(Comparison::Greater) => "if_icmpgt       ",
        Branch::IfInts(Comparison::LessOrEqual) => "if_icmple       ",
        Branch::IfReferences(Equality::Equal) => "if_acmpeq       ",
        Branch::IfReferences(Equality::NotEqual) => "if_acmpne       ",
        Branch::IfNull(Equality::Equal) => "ifnull          ",
        Branch::IfNull(Equality::NotEqual) => "ifnonnull       ",
        Branch::Goto => "goto            ",
        Branch::GotoW => "goto_w          ",
    }
}

#[tactic(auto, unfolding(jm_program::specs::Mnemonics::field_mnemonic))]
fn field_front(op: FieldOp) -> &'static str
    ensures { result.now ≡ front (field_mnemonic op) }
{
    match op {
        FieldOp::GetStatic => "getstatic       ",
        FieldOp::PutStatic => "putstatic       ",
        FieldOp::GetField => "getfield        ",
        FieldOp::PutField => "putfield        ",
    }
}

#[tactic(auto, unfolding(jm_program::specs::Mnemonics::invoke_mnemonic))]
fn invoke_front(op: InvokeOp) -> &'static str
    ensures { result.now ≡ front (invoke_mnemonic op) }
{
    match op {
        InvokeOp::Virtual => "invokevirtual   ",
        InvokeOp::Special => "invokespecial   ",
        InvokeOp::Static => "invokestatic    ",
        InvokeOp::Interface => "invokeinterface ",
    }
}

// ---- the first line

fn write_low(out: &mut String, low: &i32) -> Result<(), AllocError>
    ensures { OnOk result (out.new.bytes.items ≡ out.old.bytes.items ++ (front (codes "tableswitch") ++ signed_decimal low.now)) }
{
    write!(out, "tableswitch     {low}")
}

#[tactic(auto, unfolding(crate::specs::Instructions::plain_text, jm_program::specs::Mnemonics::operand_letter))]
fn write_plain(out: &mut String, plain: &Plain) -> Result<(), AllocError>
    ensures { OnOk result (out.new.bytes.items ≡ out.old.bytes.items ++ plain_text plain.now) }
{
    match plain {
        Plain::Simple(simple) => write!(out, "{simple}"),
        Plain::PushByte(number) => write!(out, "bipush          {number}"),
        Plain::PushShort(number) => write!(out, "sipush          {number}"),
        Plain::Load(OperandType::Int, local) => write!(out, "iload           {local}"),
        Plain::Load(OperandType::Long, local) => write!(out, "lload           {local}"),
        Plain::Load(OperandType::Reference, local) => write!(out, "aload           {local}"),
        Plain::Store(OperandType::Int, local) => write!(out, "istore          {local}"),
        Plain::Store(OperandType::Long, local) => write!(out, "lstore          {local}"),
        Plain::Store(OperandType::Reference, local) => write!(out, "astore          {local}"),
        Plain::Increment(local, by) => write!(out, "iinc            {local} {by}"),
        Plain::Branch(op, target) => {
            let front = branch_front(*op);
            write!(out, "{front}L{target}")
        }
        Plain::TableSwitch(table) => write_low(out, &table.get().low),
        Plain::LookupSwitch(_) => write!(out, "lookupswitch"),
    }
}

#[tactic(auto, unfolding(crate::specs::Instructions::constant_text))]
fn write_constant(out: &mut String, constant: &Constant) -> Result<(), AllocError>
    ensures { OnOk result (out.new.bytes.items ≡ out.old.bytes.items ++ constant_text constant.now) }
{
    match constant {
        Constant::Int(number) => write!(out, "ldc             {number}"),
        Constant::Long(number) => write!(out, "ldc2_w          {number}"),
        Constant::String(units) => {
            let text = StringUnits(units.get().as_slice());
            write!(out, "ldc             \"{text}\"")
        }
    }
}

// The argument slots with the receiver's, or 256 for more than 255.
fn slots_with_receiver(descriptor: &MethodDescriptor) -> u16
    ensures { result ≡ min (argument_slots descriptor.now + 1) 256 }
{
    match descriptor.argument_slots() {
        Some(slots) => u16::from(slots) + 1,
        None => 256,
    }
}

// `invokeinterface` counts the argument slots and the receiver's.
#[tactic(auto, unfolding(crate::specs::Instructions::count_text))]
fn write_invoke(out: &mut String, op: InvokeOp, method: &MethodRef) -> Result<(), AllocError>
    ensures { OnOk result (out.new.bytes.items ≡ out.old.bytes.items ++ (front (invoke_mnemonic op) ++ (method_ref_line method.now ++ count_text op method.now))) }
{
    let front = invoke_front(op);
    write!(out, "{front}{method}")?;
    match op {
        InvokeOp::Interface => {
            let slots = slots_with_receiver(&method.descriptor);
            write!(out, " {slots}")
        }
        _ => Ok(()),
    }
}

// `multianewarray` says in how many dimensions it makes arrays.
#[tactic(auto, unfolding(jm_program::specs::Mnemonics::type_mnemonic, jm_program::specs::JasminInstructions::dimensions_line))]
fn write_type(out: &mut String, op: TypeOp, class: &ClassRef) -> Result<(), AllocError>
    ensures { OnOk result (out.new.bytes.items ≡ out.old.bytes.items ++ (front (type_mnemonic op) ++ (class_line class.now ++ dimensions_line op))) }
{
    match op {
        TypeOp::NewArray => write!(out, "anewarray       {class}"),
        TypeOp::NewArrays(dimensions) => write!(out, "multianewarray  {class} {dimensions}"),
        TypeOp::CheckCast => write!(out, "checkcast       {class}"),
        TypeOp::InstanceOf => write!(out, "instanceof      {class}"),
    }
}

// ---- the instruction

/// Writes the first line of an instruction up to its end. After an error some of it may stand
/// there.
#[tactic(auto, unfolding(crate::specs::Instructions::instr_text, crate::specs::Instructions::array_text))]
pub fn write_instruction(out: &mut String, instruction: &Instr) -> Result<(), AllocError>
    ensures { OnOk result (out.new.bytes.items ≡ out.old.bytes.items ++ instr_text instruction.now) }
{
    match instruction {
        Instr::Plain(plain) => write_plain(out, plain),
        Instr::Array(ArrayOp::New(element)) => write!(out, "newarray        {element}"),
        Instr::Array(op) => write!(out, "{op}"),
        Instr::Return(op) => write!(out, "{op}"),
        Instr::Throw => out.push_str("athrow"),
        Instr::Monitor(op) => write!(out, "{op}"),
        Instr::Constant(constant) => write_constant(out, constant),
        Instr::Field(op, field) => {
            let front = field_front(*op);
            let field = field.get();
            write!(out, "{front}{field}")
        }
        Instr::Invoke(op, method) => write_invoke(out, *op, method.get()),
        Instr::New(name) => {
            let name = name.get();
            write!(out, "new             {name}")
        }
        Instr::Type(op, class) => write_type(out, *op, class.get()),
    }
}

// ---- the lines below a switch

#[tactic(auto, unfolding(crate::specs::Instructions::target_row))]
fn write_targets(out: &mut String, targets: &[u32]) -> Result<(), AllocError>
    ensures { OnOk result (out.new.bytes.items ≡ out.old.bytes.items ++ flat_map target_row targets.now) }
{
    for target in targets {
        write!(out, "    L{target}\n")?;
    }
    Ok(())
}

#[tactic(auto, unfolding(crate::specs::Instructions::pair_row))]
fn write_pairs(out: &mut String, pairs: &[SwitchPair]) -> Result<(), AllocError>
    ensures { OnOk result (out.new.bytes.items ≡ out.old.bytes.items ++ flat_map pair_row pairs.now) }
{
    for pair in pairs {
        let key = pair.key;
        let target = pair.target;
        write!(out, "    {key} : L{target}\n")?;
    }
    Ok(())
}

#[tactic(auto, unfolding(crate::specs::Instructions::table_rows, crate::specs::Instructions::default_row))]
fn write_table(out: &mut String, table: &TableSwitch) -> Result<(), AllocError>
    ensures { OnOk result (out.new.bytes.items ≡ out.old.bytes.items ++ table_rows table.now) }
{
    write_targets(out, table.targets.as_slice())?;
    let default = table.default;
    write!(out, "    default : L{default}\n")
}

#[tactic(auto, unfolding(crate::specs::Instructions::lookup_rows, crate::specs::Instructions::default_row))]
fn write_lookup(out: &mut String, lookup: &LookupSwitch) -> Result<(), AllocError>
    ensures { OnOk result (out.new.bytes.items ≡ out.old.bytes.items ++ lookup_rows lookup.now) }
{
    write_pairs(out, lookup.pairs.as_slice())?;
    let target = lookup.default;
    write!(out, "    default : L{target}\n")
}

/// Writes the lines of a switch below its first one; no other instruction has any. After an error
/// some of them may stand there.
#[tactic(auto, unfolding(crate::specs::Instructions::rows_text))]
pub fn write_rows(out: &mut String, instruction: &Instr) -> Result<(), AllocError>
    ensures { OnOk result (out.new.bytes.items ≡ out.old.bytes.items ++ rows_text instruction.now) }
{
    match instruction {
        Instr::Plain(Plain::TableSwitch(table)) => write_table(out, table.get()),
        Instr::Plain(Plain::LookupSwitch(lookup)) => write_lookup(out, lookup.get()),
        _ => Ok(()),
    }
}
