// Instructions with what their indexes name (JVMS 4.9.1, 6.5).

ghost use Rattle.std.specs.Prelude.{◌≡◌, ◌==◌, ◌+◌, ◌&&◌, IfErr, IfOk, Ok};
ghost use Rattle.std.specs.Option.{ok_or, option_map};
ghost use Rattle.jm_bytes.specs.Reading.{GivesAll, TakesAll, each};
ghost use Rattle.jm_program.specs.Descriptors.{argument_slots};
ghost use Rattle.jm_class_format.specs.declared.read_fault.ReadFault.TheVariants.{OutOfMemory};
ghost use Rattle.jm_class_format.specs.declared.instruction.IndexedInstr.TheVariants as indexed;
ghost use Rattle.jm_class_format.specs.FileFaults.{bad_index};
ghost use Rattle.jm_class_format.specs.PoolLookups.{entry_at, text_at, class_at};
ghost use Rattle.jm_pool.specs.Texts.{Stands};
ghost use Rattle.jm_class_reader.specs.Known.{indexed_of};
ghost use Rattle.jm_class_format.specs.NamedCode.{loaded, loaded_long, calls_interface, class_method, interface_method, class_ref_at, type_operand, class_name_at, named, placed_named};

use crate::operand::Operand;
use crate::symbols::{NameKind, Symbols};
use jm_class_format::{
    Entry, IndexedInstr, LeftOutPart, PlacedInstr, PoolFault, ReadFault, operand_ref,
};
use jm_pool::{Member, Pool, Text};
use jm_program::{
    ClassRef, Constant, FieldOp, Instr, InvokeOp, MethodRef, Name, Sequence, Shared, TypeOp,
};
use std::alloc::Global;

/// The refusal of an index that names no entry of the kind that its place needs.
pub fn bad_index(index: u16) -> ReadFault
    ensures { result ≡ bad_index index }
{
    ReadFault::Pool(PoolFault::BadIndex(index))
}

/// The text that an index names (JVMS 4.4.7).
pub fn text_at<'p>(pool: &'p Pool, index: u16) -> Result<Text<'p>, ReadFault>
    ensures given { TakesAll (λ text. text.units.now) result (ok_or (text_at pool.now index) (bad_index index)) }
    ensures stands { IfOk result (Stands pool.now) }
{
    match pool.text(index) {
        Some(units) => Ok(Text { index, units }),
        None => Err(bad_index(index)),
    }
}

/// A copy of its code units.
pub fn text_of(alloc: Global, pool: &Pool, index: u16) -> Result<Sequence<u16>, ReadFault>
    ensures { GivesAll (λ units. units) OutOfMemory result (ok_or (text_at pool.now index) (bad_index index)) }
{
    let text = text_at(pool, index)?;
    let units = Vec::from_slice(alloc, text.units)?;
    Ok(Sequence::new(units))
}

// The class's name, or the array type, that an index names (JVMS 4.4.1).
fn class_at<'p>(pool: &'p Pool, index: u16) -> Result<Text<'p>, ReadFault>
    ensures given { TakesAll (λ text. text.units.now) result (ok_or (class_at pool.now index) (bad_index index)) }
    ensures stands { IfOk result (Stands pool.now) }
{
    match pool.class(index) {
        Some(text) => Ok(text),
        None => Err(bad_index(index)),
    }
}

// What `ldc` pushes: an int, or the string of an entry's text (JVMS 6.5 ldc).
#[tactic(auto, unfolding(jm_class_format::specs::NamedCode::loaded))]
fn loaded(alloc: Global, symbols: &mut Symbols<'_>, index: u16) -> Result<Constant, ReadFault>
    ensures given { GivesAll (λ constant. constant) OutOfMemory result (loaded symbols.old index (entry_at symbols.old index)) }
    ensures same { symbols.new ≡ symbols.old }
{
    match symbols.pool().entry(index) {
        Some(Entry::Integer(number)) => Ok(Constant::Int(*number)),
        Some(Entry::String(text)) => {
            let text = text_at(symbols.pool(), *text)?;
            let units = symbols.string(alloc, text)?;
            Ok(Constant::String(units))
        }
        Some(Entry::Class(_)) => Err(ReadFault::LeftOut(LeftOutPart::LdcClass)),
        _ => Err(bad_index(index)),
    }
}

// What `ldc2_w` pushes (JVMS 6.5 ldc2_w).
#[tactic(auto, unfolding(jm_class_format::specs::NamedCode::loaded_long))]
fn loaded_long(pool: &Pool, index: u16) -> Result<Constant, ReadFault>
    ensures { TakesAll (λ constant. constant) result (loaded_long pool.now index) }
{
    match pool.long(index) {
        Some(number) => Ok(Constant::Long(number)),
        None => Err(bad_index(index)),
    }
}

// Whether `invokespecial` or `invokestatic` names a method of an interface.
fn calls_interface(op: InvokeOp, texts: Option<Member<'_>>) -> bool
    ensures { result ≡ calls_interface op (option_map (λ m. (m.class.units.now, m.name.units.now, m.descriptor.units.now)) texts.entry) }
{
    match (op, texts) {
        (InvokeOp::Special | InvokeOp::Static, Some(_)) => true,
        _ => false,
    }
}

// The method of a class that an index names.
#[tactic(auto, unfolding(jm_class_format::specs::NamedCode::class_method))]
fn class_method(
    alloc: Global,
    symbols: &mut Symbols<'_>,
    op: InvokeOp,
    index: u16,
) -> Result<MethodRef, ReadFault>
    ensures given { GivesAll (λ method. method) OutOfMemory result (class_method symbols.old op index) }
    ensures same { symbols.new ≡ symbols.old }
{
    if calls_interface(op, symbols.pool().interface_method(index)) {
        return Err(ReadFault::LeftOut(LeftOutPart::InterfaceMethod));
    }
    let Some(texts) = symbols.pool().method(index) else {
        return Err(bad_index(index));
    };
    symbols.method_ref(alloc, op, texts)
}

// Whether the count is that of the argument slots with the receiver, and a zero follows (JVMS 6.5
// invokeinterface).
fn is_counted(count: u8, last: u8, method: &MethodRef) -> bool
    ensures { result ≡ ((count == argument_slots method.now.descriptor + 1) && (last == 0)) }
{
    match method.descriptor.argument_slots() {
        Some(slots) => u16::from(count) == u16::from(slots) + 1 && last == 0,
        None => false,
    }
}

// The method of an interface that an index names.
#[tactic(auto, unfolding(jm_class_format::specs::NamedCode::interface_method, jm_class_format::specs::NamedCode::counted))]
fn interface_method(
    alloc: Global,
    symbols: &mut Symbols<'_>,
    index: u16,
    count: u8,
    last: u8,
) -> Result<MethodRef, ReadFault>
    ensures given { GivesAll (λ method. method) OutOfMemory result (interface_method symbols.old index count last) }
    ensures same { symbols.new ≡ symbols.old }
{
    let Some(texts) = symbols.pool().interface_method(index) else {
        return Err(bad_index(index));
    };
    let method = symbols.method_ref(alloc, InvokeOp::Interface, texts)?;
    if is_counted(count, last, &method) {
        Ok(method)
    } else {
        drop(method);
        Err(ReadFault::BadAttribute)
    }
}

// The class, the interface or the array type that an index names.
#[tactic(auto, unfolding(jm_class_format::specs::NamedCode::class_ref_at))]
fn class_ref_at(alloc: Global, symbols: &mut Symbols<'_>, index: u16) -> Result<ClassRef, ReadFault>
    ensures given { GivesAll (λ class. class) OutOfMemory result (class_ref_at symbols.old index) }
    ensures same { symbols.new ≡ symbols.old }
{
    let text = class_at(symbols.pool(), index)?;
    symbols.class_ref(alloc, text)
}

#[tactic(auto, unfolding(jm_class_format::specs::NamedCode::type_operand))]
fn type_operand(
    alloc: Global,
    symbols: &mut Symbols<'_>,
    op: TypeOp,
    index: u16,
) -> Result<ClassRef, ReadFault>
    ensures given { GivesAll (λ class. class) OutOfMemory result (type_operand symbols.old op index) }
    ensures same { symbols.new ≡ symbols.old }
{
    let class = class_ref_at(alloc, symbols, index)?;
    operand_ref(op, class)
}

/// The class or the interface that an index names (JVMS 4.4.1).
#[tactic(auto, unfolding(jm_class_format::specs::NamedCode::class_name_at))]
pub fn class_name_at(
    alloc: Global,
    symbols: &mut Symbols<'_>,
    index: u16,
) -> Result<Name, ReadFault>
    ensures given { GivesAll (λ name. name) OutOfMemory result (class_name_at symbols.old index) }
    ensures same { symbols.new ≡ symbols.old }
{
    let text = class_at(symbols.pool(), index)?;
    symbols.name(alloc, NameKind::Class, text)
}

// `ldc` or `ldc_w` with its constant.
#[tactic(auto, unfolding(jm_class_format::specs::NamedCode::named))]
fn named_constant(alloc: Global, symbols: &mut Symbols<'_>, index: u16) -> Result<Instr, ReadFault>
    ensures given { GivesAll (λ instr. instr) OutOfMemory result (named symbols.old (indexed.Constant index)) }
    ensures same { symbols.new ≡ symbols.old }
{
    let constant = loaded(alloc, symbols, index)?;
    Ok(Instr::Constant(constant))
}

// `ldc2_w` with its constant.
#[tactic(auto, unfolding(jm_class_format::specs::NamedCode::named))]
fn named_long(pool: &Pool, index: u16) -> Result<Instr, ReadFault>
    ensures { GivesAll (λ instr. instr) OutOfMemory result (named pool.now (indexed.LongConstant index)) }
{
    let constant = loaded_long(pool, index)?;
    Ok(Instr::Constant(constant))
}

// An instruction with the field that its index names.
#[tactic(auto, unfolding(jm_class_format::specs::NamedCode::named))]
fn named_field(
    alloc: Global,
    symbols: &mut Symbols<'_>,
    op: FieldOp,
    index: u16,
) -> Result<Instr, ReadFault>
    ensures given { GivesAll (λ instr. instr) OutOfMemory result (named symbols.old (indexed.Field op index)) }
    ensures same { symbols.new ≡ symbols.old }
{
    let Some(texts) = symbols.pool().field(index) else {
        return Err(bad_index(index));
    };
    let field = symbols.field_ref(alloc, texts)?;
    let field = Shared::new(alloc, field)?;
    Ok(Instr::Field(op, field))
}

// An instruction with the method of a class that its index names.
#[tactic(auto, unfolding(jm_class_format::specs::NamedCode::named))]
fn named_method(
    alloc: Global,
    symbols: &mut Symbols<'_>,
    op: InvokeOp,
    index: u16,
) -> Result<Instr, ReadFault>
    ensures given { GivesAll (λ instr. instr) OutOfMemory result (named symbols.old (indexed.Invoke op index)) }
    ensures same { symbols.new ≡ symbols.old }
{
    let method = class_method(alloc, symbols, op, index)?;
    let method = Shared::new(alloc, method)?;
    Ok(Instr::Invoke(op, method))
}

// `invokeinterface` with its method.
#[tactic(auto, unfolding(jm_class_format::specs::NamedCode::named))]
fn named_interface_method(
    alloc: Global,
    symbols: &mut Symbols<'_>,
    index: u16,
    count: u8,
    last: u8,
) -> Result<Instr, ReadFault>
    ensures given { GivesAll (λ instr. instr) OutOfMemory result (named symbols.old (indexed.InvokeInterface index count last)) }
    ensures same { symbols.new ≡ symbols.old }
{
    let method = interface_method(alloc, symbols, index, count, last)?;
    let method = Shared::new(alloc, method)?;
    Ok(Instr::Invoke(InvokeOp::Interface, method))
}

// `new` with its class.
#[tactic(auto, unfolding(jm_class_format::specs::NamedCode::named))]
fn named_class(alloc: Global, symbols: &mut Symbols<'_>, index: u16) -> Result<Instr, ReadFault>
    ensures given { GivesAll (λ instr. instr) OutOfMemory result (named symbols.old (indexed.New index)) }
    ensures same { symbols.new ≡ symbols.old }
{
    let name = class_name_at(alloc, symbols, index)?;
    let name = Shared::new(alloc, name)?;
    Ok(Instr::New(name))
}

// An instruction with the type that its index names.
#[tactic(auto, unfolding(jm_class_format::specs::NamedCode::named))]
fn named_type(
    alloc: Global,
    symbols: &mut Symbols<'_>,
    op: TypeOp,
    index: u16,
) -> Result<Instr, ReadFault>
    ensures given { GivesAll (λ instr. instr) OutOfMemory result (named symbols.old (indexed.Type op index)) }
    ensures same { symbols.new ≡ symbols.old }
{
    let class = type_operand(alloc, symbols, op, index)?;
    let class = Shared::new(alloc, class)?;
    Ok(Instr::Type(op, class))
}

// An instruction with what its index names.
fn named_anew(
    alloc: Global,
    symbols: &mut Symbols<'_>,
    operand: Operand,
) -> Result<Instr, ReadFault>
    ensures given { GivesAll (λ instr. instr) OutOfMemory result (named symbols.old (indexed_of operand)) }
    ensures same { symbols.new ≡ symbols.old }
{
    match operand {
        Operand::Constant(index) => named_constant(alloc, symbols, index),
        Operand::Field(op, index) => named_field(alloc, symbols, op, index),
        Operand::Invoke(op, index) => named_method(alloc, symbols, op, index),
        Operand::InvokeInterface(index, count, last) => {
            named_interface_method(alloc, symbols, index, count, last)
        }
        Operand::New(index) => named_class(alloc, symbols, index),
        Operand::Type(op, index) => named_type(alloc, symbols, op, index),
    }
}

// Keeps an instruction with what its index names, which is shared.
fn keep_named(symbols: &mut Symbols<'_>, operand: Operand, instr: &Instr) -> Result<(), ReadFault>
    requires { named symbols.old (indexed_of operand) ≡ Ok instr.now }
    ensures memory { IfErr result (λ fault. fault ≡ OutOfMemory) }
    ensures same { symbols.new ≡ symbols.old }
{
    let shared = instr.share()?;
    symbols.keep(operand, shared)
}

// The same, which is made once and shared.
fn named_once(
    alloc: Global,
    symbols: &mut Symbols<'_>,
    operand: Operand,
) -> Result<Instr, ReadFault>
    ensures given { GivesAll (λ instr. instr) OutOfMemory result (named symbols.old (indexed_of operand)) }
    ensures same { symbols.new ≡ symbols.old }
{
    if let Some(known) = symbols.instruction(operand) {
        let instr = known.share()?;
        return Ok(instr);
    }
    let instr = named_anew(alloc, symbols, operand)?;
    match keep_named(symbols, operand, &instr) {
        Ok(()) => Ok(instr),
        Err(fault) => {
            drop(instr);
            Err(fault)
        }
    }
}

#[tactic(auto, unfolding(jm_class_format::specs::NamedCode::named))]
fn named(alloc: Global, symbols: &mut Symbols<'_>, instr: IndexedInstr) -> Result<Instr, ReadFault>
    ensures given { GivesAll (λ instr. instr) OutOfMemory result (named symbols.old instr) }
    ensures same { symbols.new ≡ symbols.old }
{
    match instr {
        IndexedInstr::Plain(plain) => Ok(Instr::Plain(plain)),
        IndexedInstr::Array(op) => Ok(Instr::Array(op)),
        IndexedInstr::Return(op) => Ok(Instr::Return(op)),
        IndexedInstr::Throw => Ok(Instr::Throw),
        IndexedInstr::Monitor(op) => Ok(Instr::Monitor(op)),
        IndexedInstr::LongConstant(index) => named_long(symbols.pool(), index),
        IndexedInstr::Constant(index) => named_once(alloc, symbols, Operand::Constant(index)),
        IndexedInstr::Field(op, index) => named_once(alloc, symbols, Operand::Field(op, index)),
        IndexedInstr::Invoke(op, index) => named_once(alloc, symbols, Operand::Invoke(op, index)),
        IndexedInstr::InvokeInterface(index, count, last) => {
            named_once(alloc, symbols, Operand::InvokeInterface(index, count, last))
        }
        IndexedInstr::New(index) => named_once(alloc, symbols, Operand::New(index)),
        IndexedInstr::Type(op, index) => named_once(alloc, symbols, Operand::Type(op, index)),
    }
}

/// The instructions with what their indexes name.
#[tactic(auto, using(jm_bytes::proofs::Taken::taken_steps))]
pub fn instructions_of(
    alloc: Global,
    symbols: &mut Symbols<'_>,
    placed: Vec<PlacedInstr>,
) -> Result<Vec<Instr>, ReadFault>
    ensures given { GivesAll (λ v. v.items) OutOfMemory result (each (placed_named symbols.old) placed.items) }
    ensures same { symbols.new ≡ symbols.old }
{
    let mut all = Vec::with_capacity(alloc, placed.len())?;
    for one in placed {
        let instr = named(alloc, symbols, one.instr)?;
        all.push(instr)?;
    }
    Ok(all)
}
