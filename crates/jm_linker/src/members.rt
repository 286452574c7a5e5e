// The members that a class declares, found by name and type.

ghost use Rattle.std.specs.Prelude.{◌≡◌, ◌<◌, ◌^◌, List, ℕ, length, IfOk, IfErr, IfSome, MatchResult, Some, [], map, option_map, slice_get};
ghost use Rattle.std.specs.Option.{ForSome, ForNone};
ghost use Rattle.jm_program.specs.declared.descriptor.FieldType.{FieldType};
ghost use Rattle.jm_program.specs.declared.descriptor.MethodDescriptor.{MethodDescriptor};
ghost use Rattle.jm_world.specs.Classes.{field_in, method_in};
ghost use Rattle.jm_world.specs.Loads.{duplicate_fields, duplicate_methods, duplicate_members, first_of_all};
ghost use Rattle.jm_world.specs.Resolution.{nameable};
ghost use Rattle.jm_linker.specs.Answers.{Answers, IsOutOfMemory};
ghost use Rattle.jm_linker.specs.Keys.{IsFieldKey, IsMethodKey};
ghost use Rattle.jm_linker.specs.Tables.{HasFields, HasMembers, HasMethods, HasShortNumbers, NumbersFields, NumbersMethods};

use crate::fault::{LinkFault, duplicate_member};
use crate::key::{FieldKey, MethodKey, field_key, is_field_key, is_method_key, method_key};
use crate::number::short_number;
use jm_program::{Class, ClassParts, Field, Method};
use std::alloc::Global;
use std::collections::BTreeMap;

/// A field, with its number among those of its class.
#[derive(Clone, Copy)]
pub struct NumberedField<'a> {
    pub number: u32,
    pub field: &'a Field,
}

/// A method, with its number among those of its class.
#[derive(Clone, Copy)]
pub struct NumberedMethod<'a> {
    pub number: u32,
    pub method: &'a Method,
}

/// The fields and the methods of a class by name and type, found in logarithmic time.
#[derive(Drop)]
pub struct MemberTables<'a> {
    fields: BTreeMap<FieldKey<'a>, NumberedField<'a>>,
    methods: BTreeMap<MethodKey<'a>, NumberedMethod<'a>>,
}

/// A class with its fields and methods: by name and type in tables, or, without tables, as they
/// stand in the class.
#[derive(Drop)]
pub struct Members<'a> {
    pub class: &'a ClassParts,
    tables: Option<MemberTables<'a>>,
    ghost tabled: { ForSome tables (λ t. HasMembers t class.now) },
    ghost short: { ForNone tables (HasShortNumbers class.now) },
}

// The fields by name and type, or the fault of the first that stands twice (JVMS 4.5).
fn fields_of<'a>(
    alloc: Global,
    fields: &'a [Field],
) -> Result<BTreeMap<FieldKey<'a>, NumberedField<'a>>, LinkFault>
    ensures refusal { Answers result (duplicate_fields [] fields.now) }
    ensures table { IfOk result (λ table. HasFields table fields.now × NumbersFields table fields.now) }
{
    let mut table = BTreeMap::new(alloc);
    for (index, field) in fields.iter().enumerate() {
        let key = field_key(&field.name, &field.descriptor);
        let number = short_number(index)?;
        if let Some(_) = table.insert(key, NumberedField { number, field })? {
            return Err(duplicate_member(alloc, &field.name));
        }
    }
    Ok(table)
}

// The methods by name and type, or the fault of the first that stands twice (JVMS 4.6).
fn methods_of<'a>(
    alloc: Global,
    methods: &'a [Method],
) -> Result<BTreeMap<MethodKey<'a>, NumberedMethod<'a>>, LinkFault>
    ensures refusal { Answers result (duplicate_methods [] methods.now) }
    ensures table { IfOk result (λ table. HasMethods table methods.now × NumbersMethods table methods.now) }
{
    let mut table = BTreeMap::new(alloc);
    for (index, method) in methods.iter().enumerate() {
        let key = method_key(alloc, &method.name, &method.descriptor)?;
        let number = short_number(index)?;
        if let Some(_) = table.insert(key, NumberedMethod { number, method })? {
            return Err(duplicate_member(alloc, &method.name));
        }
    }
    Ok(table)
}

// The first field that has the key's name and type.
fn find_field<'a>(fields: &'a [Field], key: &FieldKey<'_>) -> Option<NumberedField<'a>>
    requires { length fields.now < 2 ^ 32 }
    ensures field { (name : List ℕ) (t : FieldType) → IsFieldKey key.now name t → option_map (λ f. f.field.now) result ≡ field_in fields.now name t }
    ensures number { IfSome result (λ f. slice_get fields.now f.number ≡ Some f.field.now) }
{
    for (index, field) in fields.iter().enumerate() {
        if is_field_key(key, &field.name, &field.descriptor) {
            let number = index as u32;
            return Some(NumberedField { number, field });
        }
    }
    None
}

// The first method that has the key's name and type.
fn find_method<'a>(methods: &'a [Method], key: &MethodKey<'_>) -> Option<NumberedMethod<'a>>
    requires { length methods.now < 2 ^ 32 }
    ensures method { (name : List ℕ) (t : MethodDescriptor) → IsMethodKey key.now name t → option_map (λ m. m.method.now) result ≡ method_in methods.now name t }
    ensures number { IfSome result (λ m. slice_get methods.now m.number ≡ Some m.method.now) }
{
    for (index, method) in methods.iter().enumerate() {
        if is_method_key(key, &method.name, &method.descriptor) {
            let number = index as u32;
            return Some(NumberedMethod { number, method });
        }
    }
    None
}

impl<'a> Members<'a> {
    /// The class without tables of its members: they are searched, which takes less where they are
    /// few. Whether one stands twice is not looked at.
    pub fn searched(class: &'a ClassParts) -> Result<Members<'a>, LinkFault>
        ensures { MatchResult result (λ members. members.class.now ≡ class.now) (λ fault. IsOutOfMemory fault) }
    {
        short_number(class.fields.as_slice().len())?;
        short_number(class.methods.as_slice().len())?;
        Ok(Members {
            class,
            tables: None,
        })
    }

    /// The class with its members by name and type, or the fault of the first field or method that
    /// stands twice (JVMS 4.5, 4.6).
    pub fn of(alloc: Global, class: &'a ClassParts) -> Result<Members<'a>, LinkFault>
        ensures refusal { Answers result (duplicate_members class.now) }
        ensures class { IfOk result (λ members. members.class.now ≡ class.now) }
    {
        let fields = fields_of(alloc, class.fields.as_slice())?;
        let methods = methods_of(alloc, class.methods.as_slice())?;
        Ok(Members {
            class,
            tables: Some(MemberTables { fields, methods }),
        })
    }

    /// The field of the name and type that a program can name, with its number: String's one field
    /// has no name for it.
    pub fn field(&self, key: &FieldKey<'a>) -> Option<NumberedField<'a>>
        ensures field { (name : List ℕ) (t : FieldType) → IsFieldKey key.now name t
            → option_map (λ f. f.field.now) result ≡ field_in (nameable self.now.class.now) name t }
        ensures number { IfSome result (λ f. slice_get self.now.class.now.fields f.number ≡ Some f.field.now) }
    {
        if self.class.name.is_string() {
            return None;
        }
        match &self.tables {
            Some(tables) => tables.fields.get(key).copied(),
            None => find_field(self.class.fields.as_slice(), key),
        }
    }

    /// The method of the name and type, with its number.
    pub fn method(&self, key: &MethodKey<'a>) -> Option<NumberedMethod<'a>>
        ensures method { (name : List ℕ) (t : MethodDescriptor) → IsMethodKey key.now name t
            → option_map (λ m. m.method.now) result ≡ method_in self.now.class.now.methods name t }
        ensures number { IfSome result (λ m. slice_get self.now.class.now.methods m.number ≡ Some m.method.now) }
    {
        match &self.tables {
            Some(tables) => tables.methods.get(key).copied(),
            None => find_method(self.class.methods.as_slice(), key),
        }
    }
}

/// The members of each class of the program, or the fault of the first that stands twice in one.
pub fn members_of_program<'a>(
    alloc: Global,
    program: &'a [Class],
) -> Result<Vec<Members<'a>>, LinkFault>
    ensures refusal { Answers result (first_of_all duplicate_members program.now) }
    ensures classes { IfOk result (λ all. map (λ m. m.class.now) all.items ≡ program.now) }
{
    let mut all = Vec::with_capacity(alloc, program.len())?;
    for class in program {
        all.push(Members::of(alloc, class.parts())?)?;
    }
    Ok(all)
}
