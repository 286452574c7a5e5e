// What a program's classes have, by their numbers.

use crate::method::LinkedConstant;
use jm_program::Sequence;
use jm_tables::{FieldKinds, Hierarchy, Layout, MethodTable};

/// What a program's classes have, by their numbers.
pub struct Tables {
    /// Which classes are above which (JVMS 2.4, 5.3.5).
    pub hierarchy: Hierarchy,
    /// Where their fields stand, in instances and among the static ones (JVMS 2.5.3, 2.7, 5.5).
    pub layout: Layout,
    /// What kinds of values the fields of their instances hold (JVMS 2.3, 2.4, 6.5 new).
    pub kinds: FieldKinds,
    /// The methods that are selected for an object of a class, by selector: a selector stands for a
    /// name and a type, and a method's number is that among the methods of all classes, those of the
    /// built-in ones first, of each as declared (JVMS 5.4.5, 6.5 invokevirtual).
    pub selected: MethodTable,
    /// Of each method, by its number among those of all classes, its number among those with code,
    /// or none if it has no code.
    pub codes: Sequence<Option<u32>>,
    /// Of each class the number of its superclass, or none if it has none (JVMS 4.1).
    pub superclasses: Sequence<Option<u32>>,
    /// Of each of the program's classes the number, among its methods, of the one that initializes it,
    /// or none (JVMS 2.9).
    pub initializers: Sequence<Option<u32>>,
    /// Of each of the program's classes the constant of each of its fields, in the order of the fields;
    /// none of an instance field, where one is ignored (JVMS 4.7.2).
    pub constants: Sequence<Sequence<Option<LinkedConstant>>>,
}

// Written out, so that whoever lets go of one makes a call (docs/DECISIONS.md).
impl Drop for Tables {
    fn drop(self) {
        let Tables {
            hierarchy: _,
            layout: _,
            kinds: _,
            selected: _,
            codes: _,
            superclasses: _,
            initializers: _,
            constants: _,
        } = self;
    }
}
