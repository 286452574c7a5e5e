// The class file (JVMS 4.1), its fields (JVMS 4.5) and its methods (JVMS 4.6).

ghost use Rattle.std.specs.Prelude.{◌≡◌, ◌++◌, Bool, IsTrue, All, OnOk, IfOk, IfErr, MatchResult, Ok};
ghost use Rattle.std.specs.List.{list_all};
ghost use Rattle.jm_bytes.specs.Reading.{GivesAll};
ghost use Rattle.jm_pool.specs.Building.{pool_bytes};
ghost use Rattle.jm_program.specs.Fits.{method_fits, Fits};
ghost use Rattle.jm_class_format.specs.ClassFile.{Spells, class_file};
ghost use Rattle.jm_class_writer.specs.declared.fault.WriteFault.TheVariants.{TooMany, OutOfMemory};
ghost use Rattle.jm_class_writer.specs.Drafts.{Leaves};
ghost use Rattle.jm_class_writer.specs.CodeParts.{InstructionsFit, put_name};
ghost use Rattle.jm_class_writer.specs.ClassParts.{put_class, put_superclass, put_interfaces, put_constant, put_field_attributes, put_field, put_fields, put_method_attributes, put_method, put_methods, put_class_attributes, put_contents, put_version, written};
ghost use Rattle.jm_class_writer.specs.Ranges.{OfSome, UnitsInRange, ConstantInRange, CodeInRange, FieldInRange, MethodInRange, InRange};
ghost use Rattle.jm_class_writer.specs.Limits.{WithinLimits};

use crate::code_attribute::{put_code_body, put_name};
use crate::draft::Draft;
use crate::fault::WriteFault;
use crate::pool_use::{class_index, constant_index};
use crate::texts::{field_text, method_text};
use jm_program::{Class, ClassParts, Code, Constant, Field, Method, Name, Sequence, Version};
use std::alloc::Global;

const MAGIC: usize = 0xCAFE_BABE;

// The names of the attributes ConstantValue, Code and SourceFile.
const CONSTANT_VALUE: [u16; 13] = [67, 111, 110, 115, 116, 97, 110, 116, 86, 97, 108, 117, 101];

const CODE: [u16; 4] = [67, 111, 100, 101];

const SOURCE_FILE: [u16; 10] = [83, 111, 117, 114, 99, 101, 70, 105, 108, 101];

// ---- the head

#[tactic(auto, unfolding(crate::specs::ClassParts::put_class))]
fn put_class(draft: &mut Draft, alloc: Global, name: &Name) -> Result<(), WriteFault>
    ensures class { Leaves (λ _. tt) result draft.new (put_class name.now draft.old) }
    ensures range { UnitsInRange name.now }
{
    let index = class_index(draft, alloc, name)?;
    draft.put_u2(usize::from(index))
}

// 0 for none.
#[tactic(auto, unfolding(crate::specs::ClassParts::put_superclass))]
fn put_superclass(
    draft: &mut Draft,
    alloc: Global,
    superclass: &Option<Name>,
) -> Result<(), WriteFault>
    ensures superclass { Leaves (λ _. tt) result draft.new (put_superclass superclass.now draft.old) }
    ensures range { OfSome UnitsInRange superclass.now }
{
    match superclass {
        None => draft.put_u2(0),
        Some(name) => put_class(draft, alloc, name),
    }
}

#[tactic(auto, unfolding(crate::specs::ClassParts::put_interfaces), using(crate::proofs::Loops::all_steps))]
fn put_interfaces(draft: &mut Draft, alloc: Global, names: &[Name]) -> Result<(), WriteFault>
    ensures interfaces { Leaves (λ _. tt) result draft.new (put_interfaces names.now draft.old) }
    ensures range { OnOk result (All UnitsInRange names.now) }
{
    draft.put_u2(names.len())?;
    for name in names {
        put_class(draft, alloc, name)?;
    }
    Ok(())
}

// ---- fields

// The index of the constant's entry.
#[tactic(auto, unfolding(crate::specs::ClassParts::put_constant))]
fn put_constant(draft: &mut Draft, alloc: Global, constant: &Constant) -> Result<(), WriteFault>
    ensures constant { Leaves (λ _. tt) result draft.new (put_constant constant.now draft.old) }
    ensures range { ConstantInRange constant.now }
{
    let index = constant_index(draft, alloc, constant)?;
    draft.put_u2(usize::from(index))
}

// Its ConstantValue, where it has one (JVMS 4.7.2).
#[tactic(auto, unfolding(crate::specs::ClassParts::put_field_attributes, crate::specs::Drafts::with_length))]
fn put_field_attributes(
    draft: &mut Draft,
    alloc: Global,
    constant: &Option<Constant>,
) -> Result<(), WriteFault>
    ensures attributes { Leaves (λ _. tt) result draft.new (put_field_attributes constant.now draft.old) }
    ensures range { OnOk result (OfSome ConstantInRange constant.now) }
{
    let Some(constant) = constant else {
        return draft.put_u2(0);
    };
    draft.put_u2(1)?;
    put_name(draft, alloc, &CONSTANT_VALUE)?;
    let before = draft.open(alloc);
    put_constant(draft, alloc, constant)?;
    draft.close(before)
}

// The index of the text of a type.
fn put_type(draft: &mut Draft, alloc: Global, text: Name) -> Result<(), WriteFault>
    ensures name { Leaves (λ _. tt) result draft.new (put_name text draft.old) }
    ensures range { UnitsInRange text }
{
    let done = put_name(draft, alloc, text.units());
    drop(text);
    done
}

#[tactic(auto, unfolding(crate::specs::ClassParts::put_field))]
fn put_field(draft: &mut Draft, alloc: Global, field: &Field) -> Result<(), WriteFault>
    ensures field { Leaves (λ _. tt) result draft.new (put_field field.now draft.old) }
    ensures range { OnOk result (FieldInRange field.now) }
{
    draft.put_u2(usize::from(field.flags.bits))?;
    put_name(draft, alloc, field.name.units())?;
    put_type(draft, alloc, field_text(alloc, &field.descriptor)?)?;
    put_field_attributes(draft, alloc, &field.constant)
}

#[tactic(auto, unfolding(crate::specs::ClassParts::put_fields), using(crate::proofs::Loops::all_steps))]
fn put_fields(draft: &mut Draft, alloc: Global, fields: &[Field]) -> Result<(), WriteFault>
    ensures fields { Leaves (λ _. tt) result draft.new (put_fields fields.now draft.old) }
    ensures range { OnOk result (All FieldInRange fields.now) }
{
    draft.put_u2(fields.len())?;
    for field in fields {
        put_field(draft, alloc, field)?;
    }
    Ok(())
}

// ---- methods

// Its Code, where it has one (JVMS 4.7.3).
#[tactic(auto, unfolding(crate::specs::ClassParts::put_method_attributes, crate::specs::Drafts::with_length))]
fn put_method_attributes(
    draft: &mut Draft,
    alloc: Global,
    code: &Option<Code>,
) -> Result<(), WriteFault>
    requires { InstructionsFit code.now }
    ensures attributes { Leaves (λ _. tt) result draft.new (put_method_attributes code.now draft.old) }
    ensures range { OnOk result (OfSome CodeInRange code.now) }
{
    let Some(code) = code else {
        return draft.put_u2(0);
    };
    draft.put_u2(1)?;
    put_name(draft, alloc, &CODE)?;
    let before = draft.open(alloc);
    put_code_body(draft, alloc, code)?;
    draft.close(before)
}

#[tactic(auto, unfolding(crate::specs::ClassParts::put_method))]
fn put_method(draft: &mut Draft, alloc: Global, method: &Method) -> Result<(), WriteFault>
    requires { InstructionsFit method.now.code }
    ensures method { Leaves (λ _. tt) result draft.new (put_method method.now draft.old) }
    ensures range { OnOk result (MethodInRange method.now) }
{
    draft.put_u2(usize::from(method.flags.bits))?;
    put_name(draft, alloc, method.name.units())?;
    put_type(draft, alloc, method_text(alloc, &method.descriptor)?)?;
    put_method_attributes(draft, alloc, &method.code)
}

#[tactic(auto, unfolding(crate::specs::ClassParts::put_methods), using(crate::proofs::Loops::all_steps))]
fn put_methods(draft: &mut Draft, alloc: Global, methods: &[Method]) -> Result<(), WriteFault>
    requires { (in_interface : Bool) × IsTrue (list_all (method_fits in_interface) methods.now) }
    ensures methods { Leaves (λ _. tt) result draft.new (put_methods methods.now draft.old) }
    ensures range { OnOk result (All MethodInRange methods.now) }
{
    draft.put_u2(methods.len())?;
    for method in methods {
        put_method(draft, alloc, method)?;
    }
    Ok(())
}

// ---- the class

// Its SourceFile, where it has one (JVMS 4.7.10).
#[tactic(auto, unfolding(crate::specs::ClassParts::put_class_attributes, crate::specs::Drafts::with_length))]
fn put_class_attributes(
    draft: &mut Draft,
    alloc: Global,
    source_file: &Option<Sequence<u16>>,
) -> Result<(), WriteFault>
    ensures attributes { Leaves (λ _. tt) result draft.new (put_class_attributes source_file.now draft.old) }
    ensures range { OnOk result (OfSome UnitsInRange source_file.now) }
{
    let Some(name) = source_file else {
        return draft.put_u2(0);
    };
    draft.put_u2(1)?;
    put_name(draft, alloc, &SOURCE_FILE)?;
    let before = draft.open(alloc);
    put_name(draft, alloc, name.as_slice())?;
    draft.close(before)
}

// What stands behind the pool.
#[tactic(auto, unfolding(crate::specs::ClassParts::put_contents, crate::specs::ClassParts::put_head, crate::specs::ClassParts::put_body))]
fn put_contents(draft: &mut Draft, alloc: Global, class: &ClassParts) -> Result<(), WriteFault>
    requires { Fits class.now }
    ensures contents { Leaves (λ _. tt) result draft.new (put_contents class.now draft.old) }
    ensures range { OnOk result (InRange class.now) }
{
    draft.put_u2(usize::from(class.flags.bits))?;
    put_class(draft, alloc, &class.name)?;
    put_superclass(draft, alloc, &class.superclass)?;
    put_interfaces(draft, alloc, class.interfaces.as_slice())?;
    put_fields(draft, alloc, class.fields.as_slice())?;
    put_methods(draft, alloc, class.methods.as_slice())?;
    put_class_attributes(draft, alloc, &class.source_file)
}

// The magic number and the version.
#[tactic(auto, unfolding(crate::specs::ClassParts::put_version))]
fn put_version(draft: &mut Draft, version: Version) -> Result<(), WriteFault>
    ensures { Leaves (λ _. tt) result draft.new (put_version version draft.old) }
{
    draft.put_u4(MAGIC)?;
    draft.put_u2(usize::from(version.minor))?;
    draft.put_u2(usize::from(version.major))
}

// The bytes with the pool and the contents behind them.
fn behind(mut front: Vec<u8>, draft: Draft) -> Result<Vec<u8>, WriteFault>
    ensures { MatchResult result (λ bytes. bytes.items ≡ front.items ++ pool_bytes draft.entries ++ draft.written) (λ fault. fault ≡ OutOfMemory) }
{
    let done = draft.write(&mut front);
    drop(draft);
    match done {
        Ok(()) => Ok(front),
        Err(error) => {
            drop(front);
            Err(WriteFault::from(error))
        }
    }
}

// The version, the pool that the contents came to need, and the contents.
#[tactic(auto, unfolding(crate::specs::ClassParts::written))]
fn written(alloc: Global, class: &ClassParts) -> Result<Vec<u8>, WriteFault>
    requires { Fits class.now }
    ensures exact { GivesAll (λ v. v.items) OutOfMemory result (written class.now) }
    ensures range { OnOk result (InRange class.now) }
{
    let mut front = Draft::new(alloc);
    if let Err(fault) = put_version(&mut front, class.version) {
        drop(front);
        return Err(fault);
    }
    let mut draft = Draft::new(alloc);
    if let Err(fault) = put_contents(&mut draft, alloc, class) {
        drop(front);
        drop(draft);
        return Err(fault);
    }
    behind(front.into_bytes(), draft)
}

/// The class file of a class (JVMS 4.1), which spells that class: reading it gives the class back.
/// The pool's entries stand in the order of their first use,
/// the parts of an entry before it.
///
/// # Errors
/// - `14 BranchTooFar`, `15 CodeTooLong`: a method's code passes a limit of its bytes.
/// - `23 PoolFull`: the class names more than a pool has indexes for.
/// - `36 TooMany`: interfaces, fields, methods, handlers or line numbers are more than 65,535, or
///   a text has more bytes.
/// - `61 OutOfMemory`: a growth was refused.
#[tactic(auto, using(crate::proofs::Written::spelled_given, crate::proofs::Written::read_back_given, crate::proofs::Written::limit_given))]
pub fn write_class(alloc: Global, class: &Class) -> Result<Vec<u8>, WriteFault>
    ensures exact { GivesAll (λ v. v.items) OutOfMemory result (written class.now) }
    // The bytes are a class file that spells the class, and reading gives it back.
    ensures spelled { IfOk result (λ bytes. Spells bytes.items class.now) }
    ensures read_back { IfOk result (λ bytes. class_file.read bytes.items ≡ Ok class.now) }
    // `36 TooMany` comes only where a count or a text passes its limit.
    ensures limit { IfErr result (λ e. e ≡ TooMany → ¬ (WithinLimits class.now)) }
{
    written(alloc, class.parts())
}
