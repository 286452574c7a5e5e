// A program whose names are resolved.

ghost use Rattle.std.specs.Prelude.{◌≡◌, ◌<◌, List, ℕ, Some, None, IfSome, length, map, slice_index_or};
ghost use Rattle.jm_program.specs.declared.class.ClassParts.{ClassParts};
ghost use Rattle.jm_program.specs.declared.descriptor.MethodDescriptor.{MethodDescriptor};
ghost use Rattle.jm_builtins.specs.List.{the_builtins};
ghost use Rattle.jm_world.specs.Hierarchy.{is_subclass};
ghost use Rattle.jm_world.specs.Resolution.{select};
ghost use Rattle.jm_tables.specs.Numbering.{name_of};
ghost use Rattle.jm_linked.specs.Kinds.{kind_of};
ghost use Rattle.jm_linked.specs.Links.{LinkedView, IsLinked, IsSelected, NamesClass, class_numbered};
ghost use Rattle.jm_linked.specs.Methods.{selector_of};
ghost use Rattle.jm_linked.specs.Tables.{IsSuperclass, all_names};

use crate::kind::ValueKind;
use crate::method::{LinkedMethod, Selected};
use crate::tables::Tables;
use jm_builtins::BuiltIn;
use jm_program::{Class, Sequence, Shared};
use std::marker::Model;

/// A program that loads, with its names resolved.
pub struct Linked {
    classes: Sequence<Class>,
    built_ins: Sequence<BuiltIn>,
    methods: Sequence<LinkedMethod>,
    literals: Sequence<Shared<Sequence<u16>>>,
    tables: Tables,
    main: u32,
}

// Written out, so that whoever lets go of one makes a call (docs/DECISIONS.md).
impl Drop for Linked {
    fn drop(self) {
        let Linked {
            classes: _,
            built_ins: _,
            methods: _,
            literals: _,
            tables: _,
            main: _,
        } = self;
    }
}

impl Model for Linked {
    ghost use Rattle.std.specs.Prelude.{◌≡◌};
    ghost use Rattle.jm_builtins.specs.List.{the_builtins};
    ghost use Rattle.jm_linked.specs.Links.{LinkedView, IsLinked};

    ghost Value = { LinkedView };

    ghost view = { λ l. record { program = l.classes; methods = l.methods; literals = l.literals; tables = l.tables; main = l.main } };

    ghost invariant = { λ l. (l.built_ins ≡ the_builtins)
        × IsLinked (record { program = l.classes; methods = l.methods; literals = l.literals; tables = l.tables; main = l.main }) };
}

// What stands at a number, if there is anything.
#[inline(always)]
fn number_at(numbers: &[Option<u32>], index: u32) -> Option<u32>
    ensures { result ≡ slice_index_or numbers.now index None }
{
    match numbers.get(index as usize) {
        Some(number) => *number,
        None => None,
    }
}

impl Linked {
    /// The linked program of these parts.
    pub fn new(
        classes: Sequence<Class>,
        built_ins: Sequence<BuiltIn>,
        methods: Sequence<LinkedMethod>,
        literals: Sequence<Shared<Sequence<u16>>>,
        tables: Tables,
        main: u32,
    ) -> Linked
        requires built_in { built_ins ≡ the_builtins }
        requires linked { IsLinked (record { program = classes; methods = methods; literals = literals; tables = tables; main = main }) }
        ensures { result ≡ record { program = classes; methods = methods; literals = literals; tables = tables; main = main } }
    {
        Linked {
            classes,
            built_ins,
            methods,
            literals,
            tables,
            main,
        }
    }

    /// The program's classes, in order.
    pub fn classes(&self) -> &[Class]
        ensures classes { result.now ≡ self.now.program }
        ensures linked { IsLinked self.now }
    {
        self.classes.as_slice()
    }

    /// The built-in classes, in order.
    pub fn built_ins(&self) -> &[BuiltIn]
        ensures { result.now ≡ the_builtins }
    {
        self.built_ins.as_slice()
    }

    /// The number of main among the methods with code.
    pub fn main(&self) -> u32
        ensures { result ≡ self.now.main }
    {
        self.main
    }

    /// The texts of the string literals, in UTF-16 code units, by number: in the order of the
    /// classes, of a class's constant fields and then its methods, and of their instructions; equal
    /// ones once, where the first one stands.
    #[inline]
    pub fn literals(&self) -> &[Shared<Sequence<u16>>]
        ensures { result.now ≡ self.now.literals }
    {
        self.literals.as_slice()
    }

    /// Which classes are above which, where their fields stand and which of their methods are
    /// selected, by the classes' numbers.
    #[inline]
    pub fn tables(&self) -> &Tables
        ensures { result.now ≡ self.now.tables }
    {
        &self.tables
    }

    /// What invokevirtual and invokeinterface find for an object of a class, by the class's number and
    /// the selector of the method's name and type: the first method from the class up that has both and
    /// is neither static nor private (JVMS 6.5 invokevirtual).
    #[inline(always)]
    pub fn select(&self, class: u32, selector: u32) -> Selected
        ensures { (name : List ℕ) (t : MethodDescriptor) → selector_of self.now.program name t ≡ Some selector → class < length (all_names self.now.program)
            → IsSelected self.now (select self.now.program (name_of (all_names self.now.program) class) name t) result }
    {
        let Some(method) = self.tables.selected.select(class, selector) else {
            return Selected::Nothing;
        };
        match number_at(self.tables.codes.as_slice(), method) {
            Some(code) => Selected::Coded(code),
            None => Selected::WithoutCode(method),
        }
    }

    /// What the parameters of the methods that a selector stands for hold, in their order: all have one
    /// type (JVMS 5.4.5). None where the first of these methods has no code.
    #[inline(always)]
    pub fn parameters(&self, selector: u32) -> Option<&[ValueKind]>
        ensures { (name : List ℕ) (t : MethodDescriptor) → selector_of self.now.program name t ≡ Some selector
            → IfSome result (λ kinds. kinds.now ≡ map kind_of t.parameters) }
    {
        let code = number_at(self.tables.codes.as_slice(), selector)?;
        let method = self.methods.as_slice().get(code as usize)?;
        Some(method.parameters.as_slice())
    }

    /// Whether a class or an interface is another one, extends it or implements it, by their numbers
    /// among all classes (JVMS 2.4). In as many steps as a number has digits.
    #[inline]
    pub fn is_subclass(&self, class: u32, above: u32) -> bool
        ensures { (name other : List ℕ) → NamesClass self.now.program class name → NamesClass self.now.program above other
            → result ≡ is_subclass self.now.program name other }
    {
        self.tables.hierarchy.is_below(class, above)
    }

    /// The number of a class's superclass, by the class's number, the built-in ones counted first; or
    /// none if it has none (JVMS 4.1).
    #[inline]
    pub fn superclass(&self, class: u32) -> Option<u32>
        ensures { (c : ClassParts) → class_numbered self.now.program class ≡ Some c → IsSuperclass self.now.program c.superclass result }
    {
        number_at(self.tables.superclasses.as_slice(), class)
    }

    /// The methods with code, in the order of the classes and of the methods of each.
    #[inline]
    pub fn methods(&self) -> &[LinkedMethod]
        ensures methods { result.now ≡ self.now.methods }
        ensures linked { IsLinked self.now }
    {
        self.methods.as_slice()
    }
}
