//! Laws of layouts, of the hierarchy and of the numbers of literals, each the contract of a function that does nothing.

ghost use Rattle.std.specs.Prelude.{◌≡◌, ◌↔◌, ℕ, ◌<◌, List, Some, true, length, nat_eq, slice_get};
ghost use Rattle.jm_program.specs.Flags.{is_static};
ghost use Rattle.jm_program.specs.Names.{same_text};
ghost use Rattle.jm_program.specs.declared.class.ClassParts.{ClassParts};
ghost use Rattle.jm_world.specs.Classes.{FoundField};
ghost use Rattle.jm_world.specs.Fields.{name_of_field};
ghost use Rattle.jm_world.specs.Hierarchy.{is_subclass};
ghost use Rattle.jm_world.specs.Loading.{literal_texts};
ghost use Rattle.jm_world.specs.Objects.{place_of_field};
ghost use Rattle.jm_tables.specs.declared.extent.DeclaredFields.{DeclaredFields};
ghost use Rattle.jm_tables.specs.declared.layout.FieldSlot.TheVariants.{Instance};
ghost use Rattle.jm_tables.specs.Layouts.{AreFields, IsAlong, IsFieldNumber, IsLayout, LayoutView, StandsInChain, slot_at, static_fields};
ghost use Rattle.jm_tables.specs.Numbering.{name_of};
ghost use Rattle.jm_tables.specs.Texts.{number_of_text};

/// No two fields of an instance have one place (JVMS 2.5.3).
pub fn one_field_a_place()
    ensures { (program : List ClassParts) (names : List (List ℕ)) (classes : List DeclaredFields) (layout : LayoutView) (a i b j below place : ℕ)
        (f g : FoundField) → AreFields program names classes → IsLayout program names layout → IsFieldNumber program a i f → IsFieldNumber program b j g
        → below < length names → StandsInChain program (name_of names below) f.class → StandsInChain program (name_of names below) g.class
        → slot_at layout a i ≡ Some (Instance place) → slot_at layout b j ≡ Some (Instance place) → (a ≡ b) × (i ≡ j) }
{}

/// A static field has a number in the model's order exactly where a layout lists it under that
/// number.
pub fn statics_by_number()
    ensures { (program : List ClassParts) (names : List (List ℕ)) (layout : LayoutView) (class field n : ℕ) (found : FoundField)
        → IsLayout program names layout → IsFieldNumber program class field found → is_static found.field.flags ≡ true
        → place_of_field (static_fields program) (name_of_field found) ≡ Some n ↔ slice_get layout.statics n ≡ Some (record { class = class; field = field }) }
{}

/// What is above a class is the class or one of its superclasses, or above an interface that one
/// of these names (JVMS 2.4, 5.3.5).
pub fn above_along_the_chain()
    ensures { (program : List ClassParts) (names : List (List ℕ)) (classes : List DeclaredFields) (class : ℕ) (above : List ℕ) → AreFields program names classes
        → class < length names → is_subclass program (name_of names class) above ≡ true → IsAlong program (name_of names class) above }
{}

/// The texts of two numbers are the same only where the numbers are.
pub fn one_number_a_text()
    ensures { (program : List ClassParts) (a b : ℕ) (s t : List ℕ) → slice_get (literal_texts program) a ≡ Some s
        → slice_get (literal_texts program) b ≡ Some t → same_text s t ≡ nat_eq a b }
{}

/// A text has a number exactly where it stands under that number.
pub fn literal_by_number()
    ensures { (program : List ClassParts) (text : List ℕ) (n : ℕ)
        → number_of_text (literal_texts program) text ≡ Some n ↔ slice_get (literal_texts program) n ≡ Some text }
{}
