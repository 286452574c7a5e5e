// The classes of a program and the built-in ones, found by name.

ghost use Rattle.std.specs.Prelude.{◌≡◌, ◌<◌, ℕ, IfOk, MatchOption, MatchResult, None, List, Some, length, map, option_copied, option_map, slice_get, take};
ghost use Rattle.std.specs.List.{list_any};
ghost use Rattle.jm_program.specs.Names.{same_text};
ghost use Rattle.jm_program.specs.declared.class.ClassParts.{ClassParts};
ghost use Rattle.jm_program.specs.declared.descriptor.MethodDescriptor.{MethodDescriptor};
ghost use Rattle.jm_world.specs.Classes.{as_class, class_named, height};
ghost use Rattle.jm_world.specs.Loading.{literal_texts};
ghost use Rattle.jm_world.specs.Loads.{duplicate_members, first_of_all};
ghost use Rattle.jm_tables.specs.Texts.{number_of_text};
ghost use Rattle.jm_linked.specs.Links.{class_numbered};
ghost use Rattle.jm_linked.specs.Methods.{all_methods, selector_of};
ghost use Rattle.jm_linker.specs.Answers.{Answers, IsOutOfMemory};
ghost use Rattle.jm_builtins.specs.List.{the_builtins};
ghost use Rattle.jm_linker.specs.BuiltInClasses.{built_in_classes, class_in, is_built_in_name, number_from};
ghost use Rattle.jm_linker.specs.BuiltIns.{as_built_in};
ghost use Rattle.jm_linker.specs.Keys.{IsMethodKey};
ghost use Rattle.jm_linker.specs.NumberedClasses.{IsNumberOf};
ghost use Rattle.jm_linker.specs.Selectors.{HasFirst, found_methods};
ghost use Rattle.jm_linker.specs.Tables.{HasNumbers};

use crate::fault::LinkFault;
use crate::key::MethodKey;
use crate::members::{Members, members_of_program};
use crate::name::is_same;
use crate::selectors::{ClassMethod, methods_of_all, selectors_of};
use jm_builtins::{BuiltIn, builtins};
use jm_program::{Class, ClassParts, Name, Sequence, Shared, Version};
use jm_tables::Literals;
use std::alloc::{AllocError, Global};
use std::collections::BTreeMap;

/// The names of a program's classes, and beside them the built-in classes.
#[derive(Drop)]
pub struct Names<'a> {
    pub program: &'a [Class],
    built_ins: &'a [ClassParts],
    numbers: BTreeMap<&'a [u16], usize>,
    ghost complete: { built_ins.now ≡ built_in_classes },
    ghost numbered: { HasNumbers numbers program.now },
}

/// The classes of a program, and beside them the built-in ones, each with its members, and the
/// program's string literals and selectors.
#[derive(Drop)]
pub struct Classes<'a> {
    pub program: &'a [Class],
    members: Vec<Members<'a>>,
    pub built_ins: Vec<Members<'a>>,
    numbers: BTreeMap<&'a [u16], usize>,
    literals: Literals<'a>,
    selectors: BTreeMap<MethodKey<'a>, u32>,
    methods: Vec<ClassMethod<'a>>,
    ghost tabled: { map (λ m. m.class.now) members.items ≡ program.now },
    ghost complete: { map (λ m. m.class.now) built_ins.items ≡ built_in_classes },
    ghost numbered: { HasNumbers numbers program.now },
    ghost gathered: { literals ≡ literal_texts program.now },
    ghost selected: { HasFirst 0 selectors (all_methods program.now) },
    ghost listed: { found_methods methods.items ≡ all_methods program.now },
}

// The numbers of a program's classes by name: of classes of one name the first one's.
fn numbers_of<'a>(
    alloc: Global,
    program: &'a [Class],
) -> Result<BTreeMap<&'a [u16], usize>, AllocError>
    ensures { IfOk result (λ numbers. HasNumbers numbers program.now) }
{
    let mut numbers = BTreeMap::new(alloc);
    let mut number = program.len();
    while number > 0 {
        number -= 1;
        numbers.insert(program[number].parts().name.units(), number)?;
    }
    Ok(numbers)
}

fn number_in<'a>(numbers: &BTreeMap<&'a [u16], usize>, name: &'a Name) -> Option<usize>
    ensures { (program : List ClassParts) → HasNumbers numbers.now program → result ≡ number_from 0 program name.now }
{
    match numbers.get(&name.units()) {
        Some(number) => Some(*number),
        None => None,
    }
}

fn class_of(built_in: BuiltIn) -> ClassParts
    ensures { result ≡ as_class built_in }
{
    let BuiltIn {
        flags,
        name,
        superclass,
        interfaces,
        fields,
        methods,
    } = built_in;
    ClassParts {
        version: Version {
            major: 52,
            minor: 0,
        },
        flags,
        name,
        superclass,
        interfaces,
        fields,
        methods,
        source_file: None,
    }
}

/// The built-in classes, as classes.
#[tactic(auto, unfolding(crate::specs::BuiltInClasses::built_in_classes))]
pub fn classes_of_built_ins(alloc: Global) -> Result<Vec<ClassParts>, AllocError>
    ensures { IfOk result (λ classes. classes.items ≡ built_in_classes) }
{
    let built_ins = builtins(alloc)?.into_vec();
    let mut classes = Vec::with_capacity(alloc, built_ins.len())?;
    for built_in in built_ins {
        classes.push(class_of(built_in))?;
    }
    Ok(classes)
}

fn built_in_of(class: ClassParts) -> BuiltIn
    ensures { result ≡ as_built_in class }
{
    let ClassParts {
        flags,
        name,
        superclass,
        interfaces,
        fields,
        methods,
        ..
    } = class;
    BuiltIn {
        flags,
        name,
        superclass,
        interfaces,
        fields,
        methods,
    }
}

/// The built-in classes, of which these are the classes.
#[tactic(auto, using(crate::proofs::BuiltInLaws::built_ins_back))]
pub fn built_ins_of(
    alloc: Global,
    classes: Vec<ClassParts>,
) -> Result<Sequence<BuiltIn>, AllocError>
    requires { classes.items ≡ built_in_classes }
    ensures { IfOk result (λ built_ins. built_ins ≡ the_builtins) }
{
    let mut built_ins = Vec::with_capacity(alloc, classes.len())?;
    for class in classes {
        built_ins.push(built_in_of(class))?;
    }
    Ok(Sequence::new(built_ins))
}

fn find_in<'a>(classes: &'a [ClassParts], name: &Name) -> Option<&'a ClassParts>
    ensures { option_copied result ≡ class_in classes.now name.now }
{
    for class in classes {
        if is_same(&class.name, name) {
            return Some(class);
        }
    }
    None
}

// The number of the first of the classes that has the name.
fn number_among(classes: &[Members], name: &Name) -> Option<usize>
    ensures { result ≡ number_from 0 (map (λ m. m.class.now) classes.now) name.now }
{
    for (number, members) in classes.iter().enumerate() {
        if is_same(&members.class.name, name) {
            return Some(number);
        }
    }
    None
}

// The members of each of the built-in classes, in none of which one stands twice. They are few, and
// programs use few of them: tables of them would take longer to make than they would save.
fn members_of_built_ins<'a>(
    alloc: Global,
    built_ins: &'a [ClassParts],
) -> Result<Vec<Members<'a>>, LinkFault>
    requires { built_ins.now ≡ built_in_classes }
    ensures { MatchResult result (λ all. map (λ m. m.class.now) all.items ≡ built_ins.now) (λ fault. IsOutOfMemory fault) }
{
    let mut all = Vec::with_capacity(alloc, built_ins.len())?;
    for class in built_ins {
        all.push(Members::searched(class)?)?;
    }
    Ok(all)
}

impl<'a> Names<'a> {
    /// The names of the program's classes, beside all built-in classes.
    pub fn of(
        alloc: Global,
        program: &'a [Class],
        built_ins: &'a [ClassParts],
    ) -> Result<Names<'a>, AllocError>
        requires { built_ins.now ≡ built_in_classes }
        ensures { IfOk result (λ names. names.program.now ≡ program.now) }
    {
        Ok(Names {
            program,
            built_ins,
            numbers: numbers_of(alloc, program)?,
        })
    }

    /// Whether a class of the name stands before the number in the program.
    pub fn stands_before(&self, name: &'a Name, number: usize) -> bool
        ensures { result ≡ list_any (λ (c : ClassParts). same_text c.name name.now) (take number self.now.program.now) }
    {
        match number_in(&self.numbers, name) {
            Some(first) => first < number,
            None => false,
        }
    }

    /// Whether a built-in class has the name.
    pub fn is_built_in(&self, name: &Name) -> bool
        ensures { result ≡ is_built_in_name name.now }
    {
        find_in(self.built_ins, name).is_some()
    }
}

impl<'a> Classes<'a> {
    /// The classes of these names with their members, or the fault of the first member that stands
    /// twice in a class of the program.
    #[tactic(auto, using(crate::proofs::Reasons::memory_says))]
    pub fn of(alloc: Global, names: Names<'a>) -> Result<Classes<'a>, LinkFault>
        ensures refusal { Answers result (first_of_all duplicate_members names.entry.program.now) }
        ensures program { IfOk result (λ classes. classes.program.now ≡ names.entry.program.now) }
    {
        let members = members_of_program(alloc, names.program)?;
        Ok(Classes::with_members(alloc, names, members)?)
    }

    /// The classes of these names with these members. The one error is that memory is refused.
    pub fn with_members(
        alloc: Global,
        names: Names<'a>,
        members: Vec<Members<'a>>,
    ) -> Result<Classes<'a>, LinkFault>
        requires { map (λ m. m.class.now) members.items ≡ names.program.now }
        ensures { MatchResult result (λ classes. classes.program.now ≡ names.entry.program.now) (λ fault. IsOutOfMemory fault) }
    {
        let Names {
            program,
            built_ins,
            numbers,
        } = names;
        let built_ins = members_of_built_ins(alloc, built_ins)?;
        let literals = Literals::of(alloc, program)?;
        let methods = methods_of_all(alloc, &built_ins, program)?;
        Ok(Classes {
            program,
            members,
            numbers,
            literals,
            selectors: selectors_of(alloc, &methods)?,
            methods,
            built_ins,
        })
    }

    /// How many classes there are: no walk up is longer.
    #[tactic(auto, using(crate::proofs::ClassLaws::many_built_ins))]
    pub fn height(&self) -> usize
        ensures { result ≡ height self.now.program.now }
    {
        self.program.len() + self.built_ins.as_slice().len()
    }

    /// The methods of all classes, the built-in ones first, of each as declared.
    pub fn methods(&self) -> &[ClassMethod<'a>]
        ensures { found_methods result.now ≡ all_methods self.now.program.now }
    {
        &self.methods
    }

    /// How many methods all classes have, the built-in ones too.
    pub fn method_count(&self) -> usize
        ensures { result ≡ length (all_methods self.now.program.now) }
    {
        self.methods.len()
    }

    /// The selector of a name and a type: the number, among the methods of all classes, of the first
    /// that has both, if one has.
    pub fn selector(&self, key: &MethodKey<'a>) -> Option<u32>
        ensures { (name : List ℕ) (t : MethodDescriptor) → IsMethodKey key.now name t → result ≡ selector_of self.now.program.now name t }
    {
        self.selectors.get(key).copied()
    }

    /// The number of a text among the program's literals, from 0, if it is one.
    pub fn literal(&self, text: &'a [u16]) -> Option<u32>
        ensures { result ≡ number_of_text (literal_texts self.now.program.now) text.now }
    {
        self.literals.number(text)
    }

    /// The texts of the program's literals, by number, moved out.
    pub fn into_literals(self) -> Vec<Shared<Sequence<u16>>>
        ensures { result.items ≡ literal_texts self.entry.program.now }
    {
        self.literals.into_texts()
    }

    /// The number of the program's first class of the name.
    pub fn number(&self, name: &'a Name) -> Option<usize>
        ensures { result ≡ number_from 0 self.now.program.now name.now }
    {
        number_in(&self.numbers, name)
    }

    /// The number of the class of the name among all classes: the built-in ones first, and then the
    /// program's.
    pub fn class_number(&self, name: &'a Name) -> Option<usize>
        ensures { MatchOption result (class_named self.now.program.now name.now ≡ None) (λ n. IsNumberOf self.now.program.now name.now n) }
    {
        match self.number(name) {
            Some(number) => Some(self.height() - self.program.len() + number),
            None => number_among(&self.built_ins, name),
        }
    }

    /// The class of a number among all classes, with its members: the built-in ones first, and then
    /// the program's.
    pub fn members_numbered(&self, number: usize) -> Option<&Members<'a>>
        ensures { option_map (λ m. m.now.class.now) result ≡ class_numbered self.now.program.now number }
    {
        match number.checked_sub(self.built_ins.len()) {
            Some(own) => self.members.get(own),
            None => self.built_ins.get(number),
        }
    }

    /// The class of a number among all classes.
    pub fn class_at(&self, number: usize) -> Option<&'a ClassParts>
        ensures { option_copied result ≡ class_numbered self.now.program.now number }
    {
        match self.members_numbered(number) {
            Some(members) => Some(members.class),
            None => None,
        }
    }

    /// The class of the name with its members: the program's, or else a built-in one.
    #[tactic(auto, using(crate::proofs::NumberedLaws::of_its_number))]
    pub fn members(&self, name: &'a Name) -> Option<&Members<'a>>
        ensures { option_map (λ m. m.now.class.now) result ≡ class_named self.now.program.now name.now }
    {
        match self.class_number(name) {
            Some(number) => self.members_numbered(number),
            None => None,
        }
    }

    /// The class of the name: the program's, or else a built-in one.
    pub fn find(&self, name: &'a Name) -> Option<&'a ClassParts>
        ensures { option_copied result ≡ class_named self.now.program.now name.now }
    {
        match self.members(name) {
            Some(members) => Some(members.class),
            None => None,
        }
    }
}
