// Names (JVMS 4.2).

ghost use Rattle.std.specs.Prelude.{◌≡◌, IfOk, codes};
ghost use Rattle.std.specs.List.{list_all};
ghost use Rattle.jm_program.specs.Names.{same_text, is_unqualified, is_method_name, is_invoked_name, is_class_name, is_init, is_clinit, is_name_unit, is_method_unit, is_ordinary_method_name};

use crate::sequence::Sequence;
use crate::shared::Shared;
use crate::text::is_text;
use std::alloc::{AllocError, Global};
use std::hash::{Hash, Hasher};
use std::marker::Model;

const DOT: u16 = 46;

const SLASH: u16 = 47;

const SEMICOLON: u16 = 59;

const LESS: u16 = 60;

const GREATER: u16 = 62;

const BRACKET: u16 = 91;

/// A name, as the UTF-16 code units of its text. It can be whatever modified UTF-8 spells, lone
/// surrogates included (JVMS 4.2, 4.4.7).
pub struct Name {
    units: Units,
}

// Written out, so that whoever lets go of one makes a call (docs/DECISIONS.md).
impl Drop for Name {
    fn drop(self) {
        let Name { units: _ } = self;
    }
}

// Where the code units stand.
enum Units {
    Own(Vec<u16>),
    Shared(Shared<Sequence<u16>>),
}

// Written out, so that whoever lets go of one makes a call (docs/DECISIONS.md).
impl Drop for Units {
    fn drop(self) {
        match self {
            Units::Own(_) | Units::Shared(_) => {}
        }
    }
}

impl Model for Name {
    ghost use Rattle.std.specs.Prelude.{List, ℕ};
    ghost use Rattle.jm_program.specs.NameUnits.{units_of};

    ghost Value = { List ℕ };

    ghost view = { λ n. units_of n.units };
}

impl Name {
    /// The name of these code units.
    pub fn new(units: Vec<u16>) -> Name
        ensures { result ≡ units.items }
    {
        Name {
            units: Units::Own(units),
        }
    }

    /// The name of these code units, whose copies share them, or the error where there is no
    /// memory for it.
    pub fn shared(alloc: Global, units: &[u16]) -> Result<Name, AllocError>
        ensures { IfOk result (λ name. name ≡ units.now) }
    {
        let units = Vec::from_slice(alloc, units)?;
        let units = Shared::new(alloc, Sequence::new(units))?;
        Ok(Name {
            units: Units::Shared(units),
        })
    }

    /// The name's code units.
    pub fn units(&self) -> &[u16]
        ensures { result.now ≡ self.now }
    {
        match &self.units {
            Units::Own(units) => units,
            Units::Shared(units) => units.get().as_slice(),
        }
    }

    /// A name of the same code units, or the error where there is no memory for it. The copies of
    /// a shared name take none, whatever their lengths.
    pub fn copy(&self, alloc: Global) -> Result<Name, AllocError>
        ensures { IfOk result (λ copy. copy ≡ self.now) }
    {
        let units = match &self.units {
            Units::Own(units) => Units::Own(Vec::from_slice(alloc, units)?),
            Units::Shared(units) => Units::Shared(units.share()?),
        };
        Ok(Name { units })
    }

    /// Whether this is the ASCII text.
    pub fn is_text(&self, text: &[u8]) -> bool
        ensures { result ≡ same_text self.now text.now }
    {
        is_text(self.units(), text)
    }
}

impl PartialEq for Name {
    ghost use Rattle.std.specs.Cmp;
    ghost use Rattle.std.proofs.lemmas.Cmp.{nat_list_eq_equiv};

    ghost eq = { same_text };

    ghost laws = { Cmp.partial_equiv_from_equiv nat_list_eq_equiv };

    fn eq(&self, other: &Name) -> bool {
        self.units() == other.units()
    }
}

impl Eq for Name {
    ghost use Rattle.std.proofs.lemmas.Cmp.{nat_list_eq_equiv};

    ghost laws = { nat_list_eq_equiv };
}

impl Hash for Name {
    ghost use Rattle.std.specs.Hash as fed;
    ghost use Rattle.std.specs.Cmp.Rules.{hashing};
    ghost use Rattle.std.proofs.Common.{rules};

    ghost hash_input = { fed.slice fed.u16 };

    ghost respects_eq = { Prim.search (hashing, rules) };

    fn hash<H: Hasher>(&self, state: &mut H) {
        self.units().hash(state);
    }
}

impl Name {
    /// Whether this can be a field's name, an unqualified one (JVMS 4.2.2).
    pub fn is_unqualified(&self) -> bool
        ensures { result ≡ is_unqualified self.now }
    {
        is_unqualified_text(self.units())
    }

    /// Whether this can be a method's name (JVMS 4.2.2).
    pub fn is_method_name(&self) -> bool
        ensures { result ≡ is_method_name self.now }
    {
        is_ordinary_method_name(self.units()) || self.is_init() || self.is_clinit()
    }

    /// Whether an instruction may invoke a method of this name (JVMS 4.4.2).
    pub fn is_invoked_name(&self) -> bool
        ensures { result ≡ is_invoked_name self.now }
    {
        self.is_method_name() && !self.is_clinit()
    }

    /// Whether this can be the name of a class or an interface (JVMS 4.2.1).
    pub fn is_class_name(&self) -> bool
        ensures { result ≡ is_class_name self.now }
    {
        self.units()
            .split(|unit| *unit == SLASH)
            .all(|part| is_unqualified_text(part))
    }

    /// Whether this is the name of instance initialization methods, `<init>` (JVMS 2.9).
    pub fn is_init(&self) -> bool
        ensures { result ≡ is_init self.now }
    {
        is_text(self.units(), b"<init>")
    }

    /// Whether this is `java/lang/Object`.
    pub fn is_object(&self) -> bool
        ensures { result ≡ same_text self.now (codes "java/lang/Object") }
    {
        is_text(self.units(), b"java/lang/Object")
    }

    /// Whether this is `java/lang/String`.
    pub fn is_string(&self) -> bool
        ensures { result ≡ same_text self.now (codes "java/lang/String") }
    {
        is_text(self.units(), b"java/lang/String")
    }

    /// Whether this is `finalize`.
    pub fn is_finalize(&self) -> bool
        ensures { result ≡ same_text self.now (codes "finalize") }
    {
        is_text(self.units(), b"finalize")
    }

    /// Whether this is the name of class initialization methods, `<clinit>` (JVMS 2.9).
    pub fn is_clinit(&self) -> bool
        ensures { result ≡ is_clinit self.now }
    {
        is_text(self.units(), b"<clinit>")
    }
}

// Not empty, and without the signs that part names and types.
fn is_unqualified_text(units: &[u16]) -> bool
    ensures { result ≡ is_unqualified units.now }
{
    !units.is_empty() && are_name_units(units)
}

fn are_name_units(units: &[u16]) -> bool
    ensures { result ≡ list_all is_name_unit units.now }
{
    units.iter().all(|unit| is_name_unit(*unit))
}

// Unqualified, with neither < nor >.
fn is_ordinary_method_name(units: &[u16]) -> bool
    ensures { result ≡ is_ordinary_method_name units.now }
{
    is_unqualified_text(units) && are_method_units(units)
}

fn are_method_units(units: &[u16]) -> bool
    ensures { result ≡ list_all is_method_unit units.now }
{
    units
        .iter()
        .all(|unit| !(*unit == LESS || *unit == GREATER))
}

fn is_name_unit(unit: u16) -> bool
    ensures { result ≡ is_name_unit unit }
{
    !(unit == DOT || unit == SEMICOLON || unit == BRACKET || unit == SLASH)
}
