// Classes with their fields and methods, and the rules that a class keeps (JVMS 4.1, 4.5, 4.6).

ghost use Rattle.std.specs.Prelude.{◌≡◌, ◌↔◌, ◌≤◌, ◌+◌, Bool, IsTrue, true, List, ℕ, Option, if◌then◌else◌};
ghost use Rattle.std.specs.List.{list_all};
ghost use Rattle.std.specs.Option.{SomeIff};
ghost use Rattle.jm_program.specs.Flags.{is_static, is_synchronized, is_native, is_abstract, is_interface};
ghost use Rattle.jm_program.specs.Names.{is_class_name};
ghost use Rattle.jm_program.specs.Fits.{superclass_fits, field_constant_fits, field_fits, method_slots, is_class_initializer, body_fits, method_fits};

use crate::code::Code;
use crate::constant::Constant;
use crate::descriptor::{FieldType, MethodDescriptor};
use crate::flags::AccessFlags;
use crate::limits::{NEWEST_MAJOR, OLDEST_MAJOR};
use crate::name::Name;
use crate::sequence::Sequence;
use std::marker::Model;

/// The version of a class file (JVMS 4.1), compared by major and then by minor.
#[derive(Clone, Copy, PartialEq, Eq)]
pub struct Version {
    pub major: u16,
    pub minor: u16,
}

/// A field that a class declares (JVMS 4.5).
#[derive(PartialEq, Eq, Drop)]
pub struct Field {
    pub flags: AccessFlags,
    pub name: Name,
    pub descriptor: FieldType,
    /// What a static field begins with (JVMS 4.7.2).
    pub constant: Option<Constant>,
}

/// A method that a class declares (JVMS 4.6).
#[derive(PartialEq, Eq)]
pub struct Method {
    pub flags: AccessFlags,
    pub name: Name,
    pub descriptor: MethodDescriptor,
    /// None in an abstract method.
    pub code: Option<Code>,
}

// Written out, so that whoever lets go of one makes a call (docs/DECISIONS.md).
impl Drop for Method {
    fn drop(self) {
        let Method {
            flags: _,
            name: _,
            descriptor: _,
            code: _,
        } = self;
    }
}

/// The parts of a class or an interface (JVMS 4.1).
#[derive(PartialEq, Eq, Drop)]
pub struct ClassParts {
    pub version: Version,
    pub flags: AccessFlags,
    pub name: Name,
    /// None for java/lang/Object alone.
    pub superclass: Option<Name>,
    pub interfaces: Sequence<Name>,
    pub fields: Sequence<Field>,
    pub methods: Sequence<Method>,
    /// The code units of the source file's name (JVMS 4.7.10).
    pub source_file: Option<Sequence<u16>>,
}

/// A class or an interface that keeps the rules of a class (JVMS 4), which [`ClassParts::fits`]
/// tests.
pub struct Class {
    parts: ClassParts,
}

// Written out, so that whoever lets go of one makes a call (docs/DECISIONS.md).
impl Drop for Class {
    fn drop(self) {
        let Class { parts: _ } = self;
    }
}

impl Model for Class {
    ghost use Rattle.jm_program.specs.Fits.{Fits};
    ghost use Rattle.jm_program.specs.declared.class.ClassParts.{ClassParts};

    ghost Value = { ClassParts };

    ghost view = { λ c. c.parts };

    ghost invariant = { λ c. Fits c.parts };
}

impl Version {
    ghost use Rattle.jm_program.specs.Fits.{version_fits};

    /// Whether it is from 45.0 to 52.0 (JVMS 4.1).
    pub fn fits(&self) -> bool
        ensures { result ≡ version_fits self.now }
    {
        let major = self.major;
        OLDEST_MAJOR <= major
            && (major < NEWEST_MAJOR || (major == NEWEST_MAJOR && self.minor == 0))
    }
}

impl Field {
    ghost use Rattle.jm_program.specs.Fits.{field_fits};

    /// Whether a class can declare it (JVMS 4.5, 4.7.2).
    pub fn fits(&self) -> bool
        ensures { result ≡ field_fits self.now }
    {
        self.name.is_unqualified()
            && self.descriptor.fits()
            && field_constant_fits(self.flags, &self.descriptor, &self.constant)
    }
}

impl Method {
    ghost use Rattle.jm_program.specs.Fits.{method_fits, method_slots, is_class_initializer, is_finalizer};

    /// The slots of the arguments, the receiver included, or None where they take more than 255
    /// (JVMS 4.3.3).
    pub fn argument_slots(&self) -> Option<u8>
        ensures { SomeIff result (method_slots self.now ≤ 255) (method_slots self.now) }
    {
        let slots = self.descriptor.argument_slots()?;
        let receiver = if self.flags.has(AccessFlags::STATIC) {
            0
        } else {
            1
        };
        slots.checked_add(receiver)
    }

    /// Whether it is `<clinit>()V` (JVMS 2.9).
    pub fn is_class_initializer(&self) -> bool
        ensures { result ≡ is_class_initializer self.now }
    {
        self.name.is_clinit() && self.descriptor.is_void()
    }

    /// Whether it is `finalize()V`.
    pub fn is_finalizer(&self) -> bool
        ensures { result ≡ is_finalizer self.now }
    {
        self.name.is_finalize() && self.descriptor.is_void()
    }

    /// Whether a class, or an interface, can declare it (JVMS 4.6, 4.7.3).
    pub fn fits(&self, in_interface: bool) -> bool
        ensures { result ≡ method_fits in_interface self.now }
    {
        self.name.is_method_name()
            && self.descriptor.is_method_type()
            && self.descriptor.is_kept()
            && self.argument_slots().is_some()
            && !self.flags.has(AccessFlags::NATIVE)
            && !(self.flags.has(AccessFlags::STATIC) && self.flags.has(AccessFlags::SYNCHRONIZED))
            && !self.is_finalizer()
            && body_fits(in_interface, self)
    }
}

impl ClassParts {
    ghost use Rattle.jm_program.specs.Fits.{Fits};

    /// Whether these are the parts of a class: the rules of JVMS 4 that do not speak of bytes.
    pub fn fits(&self) -> bool
        ensures { IsTrue result ↔ Fits self.now }
    {
        self.version.fits()
            && self.name.is_class_name()
            && superclass_fits(&self.name, &self.superclass)
            && are_class_names(self.interfaces.as_slice())
            && fields_fit(self.fields.as_slice())
            && methods_fit(
                self.flags.has(AccessFlags::INTERFACE),
                self.methods.as_slice(),
            )
    }
}

impl Class {
    ghost use Rattle.jm_program.specs.Fits.{Fits};

    /// The class of these parts.
    pub fn new(parts: ClassParts) -> Class
        requires { Fits parts }
        ensures { result ≡ parts }
    {
        Class { parts }
    }

    /// The class's parts, which keep the rules.
    pub fn parts(&self) -> &ClassParts
        ensures parts { result.now ≡ self.now }
        ensures fits { Fits self.now }
    {
        &self.parts
    }

    /// The class's parts, moved out.
    pub fn into_parts(self) -> ClassParts
        ensures parts { result ≡ self }
        ensures fits { Fits self }
    {
        let Class { parts } = self;
        parts
    }
}

fn superclass_fits(name: &Name, superclass: &Option<Name>) -> bool
    ensures { result ≡ superclass_fits name.now superclass.now }
{
    match superclass {
        None => name.is_object(),
        Some(superclass) => superclass.is_class_name(),
    }
}

fn are_class_names(names: &[Name]) -> bool
    ensures { result ≡ list_all is_class_name names.now }
{
    names.iter().all(|name| name.is_class_name())
}

fn fields_fit(fields: &[Field]) -> bool
    ensures { result ≡ list_all field_fits fields.now }
{
    fields.iter().all(|field| field.fits())
}

fn methods_fit(in_interface: bool, methods: &[Method]) -> bool
    ensures { result ≡ list_all (method_fits in_interface) methods.now }
{
    methods.iter().all(|method| method.fits(in_interface))
}

fn field_constant_fits(
    flags: AccessFlags,
    descriptor: &FieldType,
    constant: &Option<Constant>,
) -> bool
    ensures { result ≡ field_constant_fits flags descriptor.now constant.now }
{
    match constant {
        None => true,
        Some(constant) => {
            flags.has(AccessFlags::STATIC)
                && descriptor.dimensions == 0
                && constant.is_of(&descriptor.element)
        }
    }
}

// Whether a method can have its code, or have none.
fn body_fits(in_interface: bool, method: &Method) -> bool
    requires { method_slots method.now ≤ 255 }
    ensures { result ≡ body_fits in_interface method.now method.now.code }
{
    match &method.code {
        None => can_be_abstract(method),
        Some(code) => {
            let Some(slots) = method.argument_slots() else {
                return false;
            };
            !method.flags.has(AccessFlags::ABSTRACT)
                && (!in_interface || method.is_class_initializer())
                && code.fits(u16::from(slots))
        }
    }
}

fn can_be_abstract(method: &Method) -> bool
    ensures { result ≡ body_fits true method.now None }
{
    method.flags.has(AccessFlags::ABSTRACT)
        && !method.flags.has(AccessFlags::STATIC)
        && !method.name.is_init()
        && !method.name.is_clinit()
}
