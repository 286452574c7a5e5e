// Instructions by their opcodes (Jasmin User Guide, "Instructions").

ghost use Rattle.std.specs.Prelude.{◌≡◌, ◌+◌, ◌<◌, ◌^◌, length};
ghost use Rattle.jm_bytes.specs.Reading.{GivesAll, TakesAll};
ghost use Rattle.jm_program.specs.declared.instruction.operation.InvokeOp.TheVariants as invoke;
ghost use Rattle.jm_class_format.specs.declared.opcode.Opcode.TheVariants as opcodes;
ghost use Rattle.jm_jasmin_ops.specs.declared.fault.AsmFault.TheVariants.{OutOfMemory};
ghost use Rattle.jm_jasmin_ops.specs.Words.{label, one, two};
ghost use Rattle.jm_jasmin_ops.specs.Operands.{signed_byte, signed_short, signed_int, unsigned_short, loaded, loaded_long, element_type, class_name, class_ref, dimensions, field_named, field_typed, method, counted};
ghost use Rattle.jm_jasmin_ops.specs.Instruction.{increment, new_arrays, named_instr, table_instr, lookup_instr, operands, instruction_in, instruction_at};

use crate::fault::AsmFault;
use crate::labelled::{Label, LabelledInstr, Line};
use crate::mnemonic::opcode_named;
use crate::numbers::{natural_within, signed_byte, signed_int, signed_short};
use crate::operands::{
    class_name, class_ref, counted, dimensions, element_type, field_named, field_typed, left_out,
    loaded, loaded_long, method,
};
use crate::profile::unknown_word;
use crate::switch::{lookup_rows, table_rows};
use crate::words::{ended, first, label, word};
use jm_class_format::Opcode;
use jm_jasmin_lex::{Token, line_of};
use jm_program::{
    ArrayOp, ClassRef, Constant, FieldOp, FieldRef, Instr, InvokeOp, MethodRef, Name, Plain,
    PrimitiveType, Shared, TypeOp,
};
use std::alloc::Global;

// ---- one operand or two, and nothing more

fn one_byte(line: usize, words: &[Token<'_>]) -> Result<i8, AsmFault>
    ensures { TakesAll (λ x. x) result (one line signed_byte words.now) }
{
    let (token, rest) = first(line, words)?;
    let number = signed_byte(token)?;
    ended(rest, number)
}

fn one_short(line: usize, words: &[Token<'_>]) -> Result<i16, AsmFault>
    ensures { TakesAll (λ x. x) result (one line signed_short words.now) }
{
    let (token, rest) = first(line, words)?;
    let number = signed_short(token)?;
    ended(rest, number)
}

fn one_int(line: usize, words: &[Token<'_>]) -> Result<i32, AsmFault>
    ensures { TakesAll (λ x. x) result (one line signed_int words.now) }
{
    let (token, rest) = first(line, words)?;
    let number = signed_int(token)?;
    ended(rest, number)
}

fn one_local(line: usize, words: &[Token<'_>]) -> Result<u16, AsmFault>
    ensures { TakesAll (λ x. x) result (one line unsigned_short words.now) }
{
    let (token, rest) = first(line, words)?;
    let number = natural_within(65535, token)?;
    ended(rest, number)
}

fn one_constant(alloc: Global, line: usize, words: &[Token<'_>]) -> Result<Constant, AsmFault>
    ensures { GivesAll (λ x. x) OutOfMemory result (one line loaded words.now) }
{
    let (token, rest) = first(line, words)?;
    let constant = loaded(alloc, token)?;
    ended(rest, constant)
}

fn one_long(line: usize, words: &[Token<'_>]) -> Result<Constant, AsmFault>
    ensures { TakesAll (λ x. x) result (one line loaded_long words.now) }
{
    let (token, rest) = first(line, words)?;
    let constant = loaded_long(token)?;
    ended(rest, constant)
}

fn one_element(line: usize, words: &[Token<'_>]) -> Result<PrimitiveType, AsmFault>
    ensures { TakesAll (λ x. x) result (one line element_type words.now) }
{
    let (token, rest) = first(line, words)?;
    let element = element_type(token)?;
    ended(rest, element)
}

fn one_label<'a>(line: usize, words: &[Token<'a>]) -> Result<Label<'a>, AsmFault>
    ensures { TakesAll (λ x. x) result (one line label words.now) }
{
    let (token, rest) = first(line, words)?;
    let label = label(token)?;
    ended(rest, label)
}

fn one_class(alloc: Global, line: usize, words: &[Token<'_>]) -> Result<Name, AsmFault>
    ensures { GivesAll (λ x. x) OutOfMemory result (one line class_name words.now) }
{
    let (token, rest) = first(line, words)?;
    let name = class_name(alloc, token)?;
    ended(rest, name)
}

fn one_type(
    alloc: Global,
    line: usize,
    op: TypeOp,
    words: &[Token<'_>],
) -> Result<ClassRef, AsmFault>
    ensures { GivesAll (λ x. x) OutOfMemory result (one line (class_ref op) words.now) }
{
    let (token, rest) = first(line, words)?;
    let class = class_ref(alloc, op, token)?;
    ended(rest, class)
}

fn one_method(
    alloc: Global,
    line: usize,
    op: InvokeOp,
    words: &[Token<'_>],
) -> Result<MethodRef, AsmFault>
    ensures { GivesAll (λ x. x) OutOfMemory result (one line (method op) words.now) }
{
    let (token, rest) = first(line, words)?;
    let method = method(alloc, op, token)?;
    ended(rest, method)
}

// A field's class and name, then its type.
fn one_field(alloc: Global, line: usize, words: &[Token<'_>]) -> Result<FieldRef, AsmFault>
    ensures { GivesAll (λ x. x) OutOfMemory result (two line field_named field_typed words.now) }
{
    let (token, rest) = first(line, words)?;
    let (class, name) = field_named(alloc, token)?;
    let (token, rest) = first(line, rest)?;
    let field = field_typed(alloc, class, name, token)?;
    ended(rest, field)
}

// A method of an interface, then the count of its slots.
fn counted_method(alloc: Global, line: usize, words: &[Token<'_>]) -> Result<MethodRef, AsmFault>
    ensures { GivesAll (λ x. x) OutOfMemory result (two line (method invoke.Interface) counted words.now) }
{
    let (token, rest) = first(line, words)?;
    let method = method(alloc, InvokeOp::Interface, token)?;
    let (token, rest) = first(line, rest)?;
    let method = counted(method, token)?;
    ended(rest, method)
}

// `iinc`: a local variable, then the number that is added to it.
fn increment(line: usize, words: &[Token<'_>]) -> Result<Instr, AsmFault>
    ensures { TakesAll (λ x. x) result (increment line words.now) }
{
    let (token, rest) = first(line, words)?;
    let local = natural_within(65535, token)?;
    let (token, rest) = first(line, rest)?;
    let by = signed_short(token)?;
    ended(rest, Instr::Plain(Plain::Increment(local, by)))
}

// ---- instructions that own names

#[tactic(auto, unfolding(crate::specs::Instruction::named_instr))]
fn field_instr(
    alloc: Global,
    line: usize,
    op: FieldOp,
    words: &[Token<'_>],
) -> Result<Instr, AsmFault>
    ensures { GivesAll (λ x. x) OutOfMemory result (named_instr line (opcodes.Field op) words.now) }
{
    let field = one_field(alloc, line, words)?;
    Ok(Instr::Field(op, Shared::new(alloc, field)?))
}

#[tactic(auto, unfolding(crate::specs::Instruction::named_instr))]
fn invoke_instr(
    alloc: Global,
    line: usize,
    op: InvokeOp,
    words: &[Token<'_>],
) -> Result<Instr, AsmFault>
    ensures { GivesAll (λ x. x) OutOfMemory result (named_instr line (opcodes.Invoke op) words.now) }
{
    let method = one_method(alloc, line, op, words)?;
    Ok(Instr::Invoke(op, Shared::new(alloc, method)?))
}

#[tactic(auto, unfolding(crate::specs::Instruction::named_instr))]
fn interface_instr(alloc: Global, line: usize, words: &[Token<'_>]) -> Result<Instr, AsmFault>
    ensures { GivesAll (λ x. x) OutOfMemory result (named_instr line opcodes.InvokeInterface words.now) }
{
    let method = counted_method(alloc, line, words)?;
    Ok(Instr::Invoke(InvokeOp::Interface, Shared::new(alloc, method)?))
}

#[tactic(auto, unfolding(crate::specs::Instruction::named_instr))]
fn new_instr(alloc: Global, line: usize, words: &[Token<'_>]) -> Result<Instr, AsmFault>
    ensures { GivesAll (λ x. x) OutOfMemory result (named_instr line opcodes.New words.now) }
{
    let name = one_class(alloc, line, words)?;
    Ok(Instr::New(Shared::new(alloc, name)?))
}

#[tactic(auto, unfolding(crate::specs::Instruction::named_instr))]
fn type_instr(
    alloc: Global,
    line: usize,
    op: TypeOp,
    words: &[Token<'_>],
) -> Result<Instr, AsmFault>
    ensures { GivesAll (λ x. x) OutOfMemory result (named_instr line (opcodes.Type op) words.now) }
{
    let class = one_type(alloc, line, op, words)?;
    Ok(Instr::Type(op, Shared::new(alloc, class)?))
}

// `multianewarray`: an array type, then in how many of its dimensions arrays are made.
fn new_arrays(alloc: Global, line: usize, words: &[Token<'_>]) -> Result<Instr, AsmFault>
    ensures { GivesAll (λ x. x) OutOfMemory result (new_arrays line words.now) }
{
    let (token, rest) = first(line, words)?;
    let class = class_ref(alloc, TypeOp::NewArrays(1), token)?;
    let (token, rest) = first(line, rest)?;
    let dimensions = dimensions(&class, token)?;
    let class = Shared::new(alloc, class)?;
    ended(rest, Instr::Type(TypeOp::NewArrays(dimensions), class))
}

// ---- instructions

// An instruction without a target, by its opcode and the words after the mnemonic.
#[tactic(auto, unfolding(crate::specs::Instruction::named_instr))]
fn named_instr(
    alloc: Global,
    line: usize,
    opcode: Opcode,
    words: &[Token<'_>],
) -> Result<Instr, AsmFault>
    ensures { GivesAll (λ x. x) OutOfMemory result (named_instr line opcode words.now) }
{
    match opcode {
        Opcode::Simple(op) => ended(words, Instr::Plain(Plain::Simple(op))),
        Opcode::Array(op) => ended(words, Instr::Array(op)),
        Opcode::Return(op) => ended(words, Instr::Return(op)),
        Opcode::Throw => ended(words, Instr::Throw),
        Opcode::Monitor(op) => ended(words, Instr::Monitor(op)),
        Opcode::PushByte => {
            let number = one_byte(line, words)?;
            Ok(Instr::Plain(Plain::PushByte(number)))
        }
        Opcode::PushShort => {
            let number = one_short(line, words)?;
            Ok(Instr::Plain(Plain::PushShort(number)))
        }
        Opcode::LoadConstant => {
            let constant = one_constant(alloc, line, words)?;
            Ok(Instr::Constant(constant))
        }
        Opcode::LoadConstantWide => {
            let constant = one_constant(alloc, line, words)?;
            Ok(Instr::Constant(constant))
        }
        Opcode::LoadLong => {
            let constant = one_long(line, words)?;
            Ok(Instr::Constant(constant))
        }
        Opcode::Load(kind) => {
            let local = one_local(line, words)?;
            Ok(Instr::Plain(Plain::Load(kind, local)))
        }
        Opcode::Store(kind) => {
            let local = one_local(line, words)?;
            Ok(Instr::Plain(Plain::Store(kind, local)))
        }
        Opcode::Increment => increment(line, words),
        Opcode::Field(op) => field_instr(alloc, line, op, words),
        Opcode::Invoke(op) => invoke_instr(alloc, line, op, words),
        Opcode::InvokeInterface => interface_instr(alloc, line, words),
        Opcode::New => new_instr(alloc, line, words),
        Opcode::NewArray => {
            let element = one_element(line, words)?;
            Ok(Instr::Array(ArrayOp::New(element)))
        }
        Opcode::Type(op) => type_instr(alloc, line, op, words),
        Opcode::NewArrays => new_arrays(alloc, line, words),
        Opcode::LeftOut(op) => Err(left_out(op, line)),
        _ => Err(AsmFault::Syntax(line)),
    }
}

// `tableswitch LOW`, and the lines below it.
#[tactic(auto, unfolding(crate::specs::Instruction::table_instr))]
fn table_instr<'a>(
    alloc: Global,
    line: usize,
    words: &[Token<'a>],
    below: &[Token<'a>],
) -> Result<Line<'a>, AsmFault>
    requires { length words.now + 1 + length below.now < 2 ^ 64 }
    ensures { GivesAll (λ x. x) OutOfMemory result (table_instr line words.now below.now) }
{
    let low = one_int(line, words)?;
    let (table, used) = table_rows(alloc, low, line, words.len() + 1, below)?;
    Ok(Line {
        instruction: LabelledInstr::TableSwitch(table),
        used,
    })
}

// `lookupswitch`, and the lines below it.
#[tactic(auto, unfolding(crate::specs::Instruction::lookup_instr))]
fn lookup_instr<'a>(
    alloc: Global,
    line: usize,
    words: &[Token<'a>],
    below: &[Token<'a>],
) -> Result<Line<'a>, AsmFault>
    requires { 1 + length below.now < 2 ^ 64 }
    ensures { GivesAll (λ x. x) OutOfMemory result (lookup_instr line words.now below.now) }
{
    if let Some(token) = words.first() {
        return Err(AsmFault::Syntax(token.line()));
    }
    let (lookup, used) = lookup_rows(alloc, line, 1, below)?;
    Ok(Line {
        instruction: LabelledInstr::LookupSwitch(lookup),
        used,
    })
}

// An instruction by its opcode, the words after the mnemonic and the tokens below the line.
#[tactic(auto, unfolding(crate::specs::Instruction::operands))]
fn operands<'a>(
    alloc: Global,
    line: usize,
    opcode: Opcode,
    words: &[Token<'a>],
    below: &[Token<'a>],
) -> Result<Line<'a>, AsmFault>
    requires { length words.now + 1 + length below.now < 2 ^ 64 }
    ensures { GivesAll (λ x. x) OutOfMemory result (operands line opcode words.now below.now) }
{
    let used = words.len() + 1;
    match opcode {
        Opcode::Branch(op) => {
            let target = one_label(line, words)?;
            Ok(Line {
                instruction: LabelledInstr::Branch(op, target),
                used,
            })
        }
        Opcode::BranchWide(op) => {
            let target = one_label(line, words)?;
            Ok(Line {
                instruction: LabelledInstr::Branch(op, target),
                used,
            })
        }
        Opcode::TableSwitch => table_instr(alloc, line, words, below),
        Opcode::LookupSwitch => lookup_instr(alloc, line, words, below),
        _ => {
            let instr = named_instr(alloc, line, opcode, words)?;
            Ok(Line {
                instruction: LabelledInstr::Named(instr),
                used,
            })
        }
    }
}

// The instruction of a line of tokens, and the tokens below it.
#[tactic(auto, unfolding(crate::specs::Instruction::instruction_in))]
fn instruction_in<'a>(
    alloc: Global,
    line: &[Token<'a>],
    below: &[Token<'a>],
) -> Result<Line<'a>, AsmFault>
    requires { length line.now + length below.now < 2 ^ 64 }
    ensures { GivesAll (λ x. x) OutOfMemory result (instruction_in line.now below.now) }
{
    let Some((token, words)) = line.split_first() else {
        return Err(AsmFault::Syntax(0));
    };
    let text = word(token)?;
    let Some(opcode) = opcode_named(text) else {
        return Err(unknown_word(token.line(), text));
    };
    operands(alloc, token.line(), opcode, words, below)
}

/// The instruction at the front of the tokens: that of the first one's line, or of the several
/// lines of a switch, and how many tokens it takes (Jasmin User Guide, "Instructions").
///
/// # Errors
/// Each with its line, and the first in the order of the words: `Syntax` for a word that is no
/// mnemonic, for an operand that is missing, out of its range or of another kind, for a word too
/// many, and for a line that a switch does not have; `BadName` and `BadDescriptor` for a name and
/// a type that are none; `BadCount` for an `invokeinterface` count that is not the argument slots
/// with the receiver's, a number of dimensions that the type of `multianewarray` does not have, a
/// table without targets or past the last int, and keys that do not rise; `LeftOut` for an
/// instruction, a directive, a number with a fraction or an exponent, a class of `ldc`, a type or a
/// branch offset as a number that the profile leaves out; `OutOfMemory`.
#[tactic(auto, unfolding(crate::specs::Instruction::instruction_at))]
pub fn instruction<'a>(alloc: Global, tokens: &[Token<'a>]) -> Result<Line<'a>, AsmFault>
    ensures { GivesAll (λ x. x) OutOfMemory result (instruction_at tokens.now) }
{
    let (line, below) = line_of(tokens);
    instruction_in(alloc, line, below)
}
