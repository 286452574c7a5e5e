// What code names: classes, fields and methods (JVMS 4.4.1, 4.4.2).

ghost use Rattle.std.specs.Prelude.{◌≡◌};

use crate::descriptor::{FieldType, MethodDescriptor};
use crate::instruction::InvokeOp;
use crate::name::Name;

/// A class, an interface or an array type, as a Class entry names it (JVMS 4.4.1).
#[derive(PartialEq, Eq, Drop)]
pub enum ClassRef {
    Class(Name),
    /// A type of at least one dimension.
    Array(FieldType),
}

/// A field of a class, by name (JVMS 4.4.2).
#[derive(PartialEq, Eq)]
pub struct FieldRef {
    pub class: ClassRef,
    pub name: Name,
    pub descriptor: FieldType,
}

// Written out, so that whoever lets go of one makes a call (docs/DECISIONS.md).
impl Drop for FieldRef {
    fn drop(self) {
        let FieldRef {
            class: _,
            name: _,
            descriptor: _,
        } = self;
    }
}

/// A method of a class or of an interface, by name (JVMS 4.4.2).
#[derive(PartialEq, Eq)]
pub struct MethodRef {
    pub class: ClassRef,
    pub name: Name,
    pub descriptor: MethodDescriptor,
}

// Written out, so that whoever lets go of one makes a call (docs/DECISIONS.md).
impl Drop for MethodRef {
    fn drop(self) {
        let MethodRef {
            class: _,
            name: _,
            descriptor: _,
        } = self;
    }
}

impl ClassRef {
    ghost use Rattle.jm_program.specs.References.{class_ref_fits};

    /// Whether it is the name of a class, or an array type that the profile has (JVMS 4.4.1).
    pub fn fits(&self) -> bool
        ensures { result ≡ class_ref_fits self.now }
    {
        match self {
            ClassRef::Class(name) => name.is_class_name(),
            ClassRef::Array(array) => array.dimensions > 0 && array.fits(),
        }
    }
}

impl FieldRef {
    ghost use Rattle.jm_program.specs.References.{field_ref_fits};

    /// Whether the class, the name and the type are ones that the profile has (JVMS 4.4.2).
    pub fn fits(&self) -> bool
        ensures { result ≡ field_ref_fits self.now }
    {
        self.class.fits() && self.name.is_unqualified() && self.descriptor.fits()
    }
}

impl MethodRef {
    ghost use Rattle.jm_program.specs.References.{method_ref_fits};

    /// Whether the class, the name and the type are ones that the profile has, and the
    /// arguments take at most 255 slots with the receiver of such an invoke (JVMS 4.4.2, 4.3.3).
    pub fn fits(&self, op: InvokeOp) -> bool
        ensures { result ≡ method_ref_fits op self.now }
    {
        self.class.fits()
            && self.name.is_invoked_name()
            && self.descriptor.is_method_type()
            && self.descriptor.is_kept()
            && self.descriptor.fits_with(op.receiver_slots())
    }
}

impl InvokeOp {
    ghost use Rattle.std.specs.Prelude.{◌≤◌};
    ghost use Rattle.jm_program.specs.References.{receiver_slots};

    /// The slots of the receiver: none in a static invoke, else one (JVMS 6.5).
    pub fn receiver_slots(self) -> u8
        ensures value { result ≡ receiver_slots self }
        ensures few { result ≤ 1 }
    {
        match self {
            InvokeOp::Static => 0,
            _ => 1,
        }
    }
}
