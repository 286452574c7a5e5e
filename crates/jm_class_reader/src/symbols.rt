// Names, types and strings of a constant pool, each made once and shared by all its uses.

ghost use Rattle.std.specs.Prelude.{◌≡◌, ◌≤◌, ◌+◌, Ok, IfSome, IfOk, IfErr};
ghost use Rattle.jm_program.specs.Descriptors.{argument_slots};
ghost use Rattle.jm_bytes.specs.Reading.{GivesAll};
ghost use Rattle.jm_class_format.specs.declared.read_fault.ReadFault.TheVariants.{OutOfMemory};
ghost use Rattle.jm_class_format.specs.Symbols.{field_type_of, method_type_of, class_ref_of, field_ref_of, method_ref_of};
ghost use Rattle.jm_pool.specs.Texts.{Stands, AllStand};
ghost use Rattle.jm_class_format.specs.NamedCode.{named};
ghost use Rattle.jm_class_reader.specs.Known.{name_of, indexed_of};

use crate::operand::Operand;
use indexmap::IndexMap;
use jm_class_format::{
    ReadFault, begins_with_bracket, class_name_of, field_name_of, field_type_of, invoked_name_of,
    method_name_of, method_type_of,
};
use jm_pool::{Member, Pool, Text};
use jm_program::{
    ClassRef, FieldRef, FieldType, Instr, InvokeOp, MethodDescriptor, MethodRef, Name, Sequence,
    Shared,
};
use std::alloc::Global;
use std::marker::Model;

/// What a text is the name of (JVMS 4.2).
#[derive(Clone, Copy, PartialEq, Eq, Hash)]
pub enum NameKind {
    /// A class or an interface.
    Class,
    Field,
    /// A method that a class declares.
    Method,
    /// A method that an instruction invokes.
    Invoked,
}

// A name that stands at an index.
#[derive(Clone, Copy, PartialEq, Eq, Hash)]
pub struct NameUse {
    kind: NameKind,
    index: u16,
}

// A method type that stands at an index, beside so many slots of a receiver.
#[derive(Clone, Copy, PartialEq, Eq, Hash)]
pub struct MethodTypeUse {
    receiver: u8,
    index: u16,
}

/// The constant pool of a class file, with what was read of it so far: a name, a type, a string or
/// an instruction's operand is made at its first use, and its other uses share it. In a contract it
/// is the pool.
pub struct Symbols<'p> {
    pool: &'p Pool,
    names: IndexMap<NameUse, Name>,
    field_types: IndexMap<u16, FieldType>,
    method_types: IndexMap<MethodTypeUse, MethodDescriptor>,
    strings: IndexMap<u16, Shared<Sequence<u16>>>,
    instructions: IndexMap<Operand, Instr>,
}

// Written out, so that whoever lets go of one makes a call (docs/DECISIONS.md).
impl Drop for Symbols<'_> {
    fn drop(self) {
        let Symbols {
            pool: _,
            names: _,
            field_types: _,
            method_types: _,
            strings: _,
            instructions: _,
        } = self;
    }
}

impl<'p> Model for Symbols<'p> {
    ghost use Rattle.std.specs.Prelude.{List};
    ghost use Rattle.jm_class_format.specs.declared.constant_pool.Entry.{Entry};
    ghost use Rattle.jm_class_reader.specs.Known.{AreKnown};

    ghost Value = { List Entry };

    ghost view = { λ s. s.pool.now };

    ghost invariant = { λ s. AreKnown s.pool.now s.names.entries s.field_types.entries s.method_types.entries s.strings.entries s.instructions.entries };
}

fn name_of(alloc: Global, kind: NameKind, units: &[u16]) -> Result<Name, ReadFault>
    ensures { GivesAll (λ name. name) OutOfMemory result (name_of kind units.now) }
{
    match kind {
        NameKind::Class => class_name_of(alloc, units),
        NameKind::Field => field_name_of(alloc, units),
        NameKind::Method => method_name_of(alloc, units),
        NameKind::Invoked => invoked_name_of(alloc, units),
    }
}

impl<'p> Symbols<'p> {
    /// The symbols of a pool, none of which was read.
    pub fn new(alloc: Global, pool: &'p Pool) -> Symbols<'p>
        ensures { result ≡ pool.now }
    {
        Symbols {
            pool,
            names: IndexMap::new(alloc),
            field_types: IndexMap::new(alloc),
            method_types: IndexMap::new(alloc),
            strings: IndexMap::new(alloc),
            instructions: IndexMap::new(alloc),
        }
    }

    /// The pool.
    pub fn pool(&self) -> &'p Pool
        ensures { result.now ≡ self.now }
    {
        self.pool
    }

    /// The name of such a thing that a text is (JVMS 4.2).
    pub fn name(&mut self, alloc: Global, kind: NameKind, text: Text<'_>) -> Result<Name, ReadFault>
        requires { Stands self.old text }
        ensures given { GivesAll (λ name. name) OutOfMemory result (name_of kind text.entry.units.now) }
        ensures same { self.new ≡ self.old }
    {
        let key = NameUse {
            kind,
            index: text.index,
        };
        if let Some(known) = self.names.get(&key) {
            let name = known.copy(alloc)?;
            return Ok(name);
        }
        let name = name_of(alloc, kind, text.units)?;
        match self.keep_name(alloc, kind, text, &name) {
            Ok(()) => Ok(name),
            Err(fault) => {
                drop(name);
                Err(fault)
            }
        }
    }

    // Keeps a copy of the name of such a thing that a text is.
    fn keep_name(
        &mut self,
        alloc: Global,
        kind: NameKind,
        text: Text<'_>,
        name: &Name,
    ) -> Result<(), ReadFault>
        requires stands { Stands self.old text }
        requires is { name_of kind text.units.now ≡ Ok name.now }
        ensures memory { IfErr result (λ fault. fault ≡ OutOfMemory) }
        ensures same { self.new ≡ self.old }
    {
        let key = NameUse {
            kind,
            index: text.index,
        };
        let copy = name.copy(alloc)?;
        self.names.insert(key, copy)?;
        Ok(())
    }

    /// The type of a field that a text spells (JVMS 4.3.2).
    pub fn field_type(&mut self, alloc: Global, text: Text<'_>) -> Result<FieldType, ReadFault>
        requires { Stands self.old text }
        ensures given { GivesAll (λ t. t) OutOfMemory result (field_type_of text.entry.units.now) }
        ensures same { self.new ≡ self.old }
    {
        if let Some(known) = self.field_types.get(&text.index) {
            let field_type = known.copy(alloc)?;
            return Ok(field_type);
        }
        let field_type = field_type_of(alloc, text.units)?;
        match self.keep_field_type(alloc, text, &field_type) {
            Ok(()) => Ok(field_type),
            Err(fault) => {
                drop(field_type);
                Err(fault)
            }
        }
    }

    // Keeps a copy of the type of a field that a text spells.
    fn keep_field_type(
        &mut self,
        alloc: Global,
        text: Text<'_>,
        field_type: &FieldType,
    ) -> Result<(), ReadFault>
        requires stands { Stands self.old text }
        requires is { field_type_of text.units.now ≡ Ok field_type.now }
        ensures memory { IfErr result (λ fault. fault ≡ OutOfMemory) }
        ensures same { self.new ≡ self.old }
    {
        let copy = field_type.copy(alloc)?;
        self.field_types.insert(text.index, copy)?;
        Ok(())
    }

    /// The type of a method that a text spells, whose receiver takes so many slots (JVMS 4.3.3).
    pub fn method_type(
        &mut self,
        alloc: Global,
        receiver: u8,
        text: Text<'_>,
    ) -> Result<MethodDescriptor, ReadFault>
        requires { Stands self.old text }
        ensures given { GivesAll (λ d. d) OutOfMemory result (method_type_of receiver text.entry.units.now) }
        ensures few { IfOk result (λ d. argument_slots d + receiver ≤ 255) }
        ensures same { self.new ≡ self.old }
    {
        let key = MethodTypeUse {
            receiver,
            index: text.index,
        };
        if let Some(known) = self.method_types.get(&key) {
            let method_type = known.copy(alloc)?;
            return Ok(method_type);
        }
        let method_type = method_type_of(alloc, receiver, text.units)?;
        match self.keep_method_type(alloc, receiver, text, &method_type) {
            Ok(()) => Ok(method_type),
            Err(fault) => {
                drop(method_type);
                Err(fault)
            }
        }
    }

    // Keeps a copy of the type of a method that a text spells.
    fn keep_method_type(
        &mut self,
        alloc: Global,
        receiver: u8,
        text: Text<'_>,
        method_type: &MethodDescriptor,
    ) -> Result<(), ReadFault>
        requires stands { Stands self.old text }
        requires is { method_type_of receiver text.units.now ≡ Ok method_type.now }
        ensures memory { IfErr result (λ fault. fault ≡ OutOfMemory) }
        ensures same { self.new ≡ self.old }
    {
        let key = MethodTypeUse {
            receiver,
            index: text.index,
        };
        let copy = method_type.copy(alloc)?;
        self.method_types.insert(key, copy)?;
        Ok(())
    }

    /// The code units of a text, as a string's (JVMS 4.4.3).
    pub fn string(
        &mut self,
        alloc: Global,
        text: Text<'_>,
    ) -> Result<Shared<Sequence<u16>>, ReadFault>
        requires { Stands self.old text }
        ensures given { GivesAll (λ units. units) OutOfMemory result (Ok text.entry.units.now) }
        ensures same { self.new ≡ self.old }
    {
        if let Some(known) = self.strings.get(&text.index) {
            let units = known.share()?;
            return Ok(units);
        }
        let units = Vec::from_slice(alloc, text.units)?;
        let units = Shared::new(alloc, Sequence::new(units))?;
        match self.keep_string(text, &units) {
            Ok(()) => Ok(units),
            Err(fault) => {
                drop(units);
                Err(fault)
            }
        }
    }

    // Keeps the code units of a text, which are shared.
    fn keep_string(
        &mut self,
        text: Text<'_>,
        units: &Shared<Sequence<u16>>,
    ) -> Result<(), ReadFault>
        requires stands { Stands self.old text }
        requires is { text.units.now ≡ units.now }
        ensures memory { IfErr result (λ fault. fault ≡ OutOfMemory) }
        ensures same { self.new ≡ self.old }
    {
        let shared = units.share()?;
        self.strings.insert(text.index, shared)?;
        Ok(())
    }

    /// The class, the interface or the array type that a text names (JVMS 4.4.1).
    #[tactic(auto, unfolding(jm_class_format::specs::Symbols::class_ref_of))]
    pub fn class_ref(&mut self, alloc: Global, text: Text<'_>) -> Result<ClassRef, ReadFault>
        requires { Stands self.old text }
        ensures given { GivesAll (λ class. class) OutOfMemory result (class_ref_of text.entry.units.now) }
        ensures same { self.new ≡ self.old }
    {
        if begins_with_bracket(text.units) {
            let array = self.field_type(alloc, text)?;
            Ok(ClassRef::Array(array))
        } else {
            let name = self.name(alloc, NameKind::Class, text)?;
            Ok(ClassRef::Class(name))
        }
    }

    /// The field that these texts name (JVMS 4.4.2).
    #[tactic(auto, unfolding(jm_class_format::specs::Symbols::field_ref_of))]
    pub fn field_ref(&mut self, alloc: Global, texts: Member<'_>) -> Result<FieldRef, ReadFault>
        requires { AllStand self.old texts }
        ensures given { GivesAll (λ field. field) OutOfMemory result (field_ref_of (texts.entry.class.units.now, texts.entry.name.units.now, texts.entry.descriptor.units.now)) }
        ensures same { self.new ≡ self.old }
    {
        let class = self.class_ref(alloc, texts.class)?;
        let name = self.name(alloc, NameKind::Field, texts.name)?;
        let descriptor = self.field_type(alloc, texts.descriptor)?;
        Ok(FieldRef {
            class,
            name,
            descriptor,
        })
    }

    /// The method that these texts name, for such an invoke (JVMS 4.4.2).
    #[tactic(auto, unfolding(jm_class_format::specs::Symbols::method_ref_of))]
    pub fn method_ref(
        &mut self,
        alloc: Global,
        op: InvokeOp,
        texts: Member<'_>,
    ) -> Result<MethodRef, ReadFault>
        requires { AllStand self.old texts }
        ensures given { GivesAll (λ method. method) OutOfMemory result (method_ref_of op (texts.entry.class.units.now, texts.entry.name.units.now, texts.entry.descriptor.units.now)) }
        ensures same { self.new ≡ self.old }
    {
        let class = self.class_ref(alloc, texts.class)?;
        let name = self.name(alloc, NameKind::Invoked, texts.name)?;
        let descriptor = self.method_type(alloc, op.receiver_slots(), texts.descriptor)?;
        Ok(MethodRef {
            class,
            name,
            descriptor,
        })
    }

    /// The instruction of such an operand, where it was kept.
    pub fn instruction(&self, operand: Operand) -> Option<&Instr>
        ensures { IfSome result (λ instr. named self.now (indexed_of operand) ≡ Ok instr.now) }
    {
        match self.instructions.get(&operand) {
            Some(known) => Some(known),
            None => None,
        }
    }

    /// Keeps the instruction of such an operand.
    pub fn keep(&mut self, operand: Operand, instr: Instr) -> Result<(), ReadFault>
        requires { named self.old (indexed_of operand) ≡ Ok instr }
        ensures memory { IfErr result (λ fault. fault ≡ OutOfMemory) }
        ensures same { self.new ≡ self.old }
    {
        self.instructions.insert(operand, instr)?;
        Ok(())
    }
}
