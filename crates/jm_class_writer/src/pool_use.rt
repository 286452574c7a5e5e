// The indexes of what a class names (JVMS 4.4).

ghost use Rattle.jm_class_writer.specs.Drafts.{Leaves};
ghost use Rattle.jm_class_writer.specs.PoolUse.{text_index, class_index, constant_index, name_and_type_index, class_ref_index, field_ref_index, method_ref_index};
ghost use Rattle.jm_class_writer.specs.Ranges.{UnitsInRange, ConstantInRange, ClassRefInRange, FieldRefInRange, MethodRefInRange};
ghost use Rattle.std.specs.Prelude.{OnOk};

use crate::draft::Draft;
use crate::fault::WriteFault;
use crate::texts::{class_text, copied, field_text, method_text};
use jm_pool::Constant as PoolConstant;
use jm_program::{ClassRef, Constant, FieldRef, InvokeOp, MethodRef, Name};
use std::alloc::Global;

/// Of a text (JVMS 4.4.7).
pub fn text_index(draft: &mut Draft, alloc: Global, units: &[u16]) -> Result<u16, WriteFault>
    ensures index { Leaves (λ index. index) result draft.new (text_index units.now draft.old) }
    ensures range { UnitsInRange units.now }
{
    let text = copied(alloc, units)?;
    draft.entry_index(PoolConstant::Utf8(text))
}

// Of a class's name, or of an array type's descriptor (JVMS 4.4.1).
#[tactic(auto, unfolding(crate::specs::PoolUse::class_index))]
fn class_text_index(draft: &mut Draft, text: Name) -> Result<u16, WriteFault>
    ensures { Leaves (λ index. index) result draft.new (class_index text draft.old) }
{
    let name = draft.entry_index(PoolConstant::Utf8(text))?;
    draft.entry_index(PoolConstant::Class(name))
}

/// Of a class or an interface (JVMS 4.4.1).
pub fn class_index(draft: &mut Draft, alloc: Global, name: &Name) -> Result<u16, WriteFault>
    ensures index { Leaves (λ index. index) result draft.new (class_index name.now draft.old) }
    ensures range { UnitsInRange name.now }
{
    let text = copied(alloc, name.units())?;
    class_text_index(draft, text)
}

/// Of a constant (JVMS 4.4.3 to 4.4.5).
#[tactic(auto, unfolding(crate::specs::PoolUse::constant_index, crate::specs::PoolUse::string_index))]
pub fn constant_index(
    draft: &mut Draft,
    alloc: Global,
    constant: &Constant,
) -> Result<u16, WriteFault>
    ensures index { Leaves (λ index. index) result draft.new (constant_index constant.now draft.old) }
    ensures range { ConstantInRange constant.now }
{
    match constant {
        Constant::Int(n) => draft.entry_index(PoolConstant::Integer(*n)),
        Constant::Long(n) => draft.entry_index(PoolConstant::Long(*n)),
        Constant::String(units) => {
            let text = text_index(draft, alloc, units.get().as_slice())?;
            draft.entry_index(PoolConstant::String(text))
        }
    }
}

// Of a name with the text of its type (JVMS 4.4.6).
#[tactic(auto, unfolding(crate::specs::PoolUse::name_and_type_index))]
fn name_and_type_index(
    draft: &mut Draft,
    alloc: Global,
    name: &Name,
    descriptor: Name,
) -> Result<u16, WriteFault>
    ensures index { Leaves (λ index. index) result draft.new (name_and_type_index name.now descriptor draft.old) }
    ensures range { UnitsInRange name.now }
{
    let first = text_index(draft, alloc, name.units())?;
    let second = draft.entry_index(PoolConstant::Utf8(descriptor))?;
    draft.entry_index(PoolConstant::NameAndType(first, second))
}

/// Of a class, an interface or an array type (JVMS 4.4.1).
#[tactic(auto, unfolding(crate::specs::PoolUse::class_ref_index))]
pub fn class_ref_index(
    draft: &mut Draft,
    alloc: Global,
    class: &ClassRef,
) -> Result<u16, WriteFault>
    ensures index { Leaves (λ index. index) result draft.new (class_ref_index class.now draft.old) }
    ensures range { OnOk result (ClassRefInRange class.now) }
{
    let text = class_text(alloc, class)?;
    class_text_index(draft, text)
}

/// Of a field that an instruction names (JVMS 4.4.2).
#[tactic(auto, unfolding(crate::specs::PoolUse::field_ref_index))]
pub fn field_ref_index(
    draft: &mut Draft,
    alloc: Global,
    field: &FieldRef,
) -> Result<u16, WriteFault>
    ensures index { Leaves (λ index. index) result draft.new (field_ref_index field.now draft.old) }
    ensures range { OnOk result (FieldRefInRange field.now) }
{
    let class = class_ref_index(draft, alloc, &field.class)?;
    let descriptor = field_text(alloc, &field.descriptor)?;
    let name_and_type = name_and_type_index(draft, alloc, &field.name, descriptor)?;
    draft.entry_index(PoolConstant::Fieldref(class, name_and_type))
}

/// Of a method that an instruction invokes (JVMS 4.4.2).
#[tactic(auto, unfolding(crate::specs::PoolUse::method_ref_index))]
pub fn method_ref_index(
    draft: &mut Draft,
    alloc: Global,
    op: InvokeOp,
    method: &MethodRef,
) -> Result<u16, WriteFault>
    ensures index { Leaves (λ index. index) result draft.new (method_ref_index op method.now draft.old) }
    ensures range { OnOk result (MethodRefInRange method.now) }
{
    let class = class_ref_index(draft, alloc, &method.class)?;
    let descriptor = method_text(alloc, &method.descriptor)?;
    let name_and_type = name_and_type_index(draft, alloc, &method.name, descriptor)?;
    match op {
        InvokeOp::Interface => {
            draft.entry_index(PoolConstant::InterfaceMethodref(class, name_and_type))
        }
        _ => draft.entry_index(PoolConstant::Methodref(class, name_and_type)),
    }
}
