// The classes of a program, as they are given and found.

ghost use Rattle.std.specs.Prelude.{◌≡◌, ◌+◌, ◌<◌, ◌≤◌, ◌^◌, IfOk, IsSome, OnOk, None, Some, length, option_map, take};
ghost use Rattle.std.specs.List.{flat_map};
ghost use Rattle.jm_class_path.specs.Search.{Search, begun, looked_for, next_name, with_names};
ghost use Rattle.jm_class_path.specs.Uses.{uses};

use crate::built_in::known_names;
use crate::uses::keep_uses;
use indexmap::IndexSet;
use jm_program::{Class, Name};
use std::alloc::{AllocError, Global};
use std::marker::Model;

/// How far a search for the classes of a program is.
#[derive(Drop)]
pub struct ClassPath {
    classes: Vec<Class>,
    // Behind the names that are known those that the classes use, each once.
    names: IndexSet<Name>,
    // How many of the names are known.
    known: usize,
    ghost within: { known ≤ length names.keys },
    ghost used: { names.keys ≡ with_names (take known names.keys) (flat_map uses classes.items) },
}

impl Model for ClassPath {
    ghost Value = { Search };

    ghost view = { λ p. record { classes = p.classes.items; known = take p.known p.names.keys } };
}

// Puts the names that classes use behind others, each where it is not among them.
fn keep_all_uses(
    alloc: Global,
    names: &mut IndexSet<Name>,
    classes: &[Class],
) -> Result<(), AllocError>
    ensures { OnOk result (names.new.keys ≡ with_names names.old.keys (flat_map uses classes.now)) }
{
    for class in classes {
        keep_uses(alloc, names, class)?;
    }
    Ok(())
}

// How many names are known once the next one was looked for.
fn with_next(names: &IndexSet<Name>, known: usize) -> usize
    ensures { known < length names.now.keys → result ≡ known + 1 }
{
    if known < names.len() {
        known + 1
    } else {
        known
    }
}

impl ClassPath {
    /// The search that begins with these classes. The error says that a growth was refused.
    pub fn new(alloc: Global, classes: Vec<Class>) -> Result<ClassPath, AllocError>
        ensures { IfOk result (λ path. path ≡ begun classes.items) }
    {
        let mut names = known_names(alloc, &classes)?;
        let known = names.len();
        keep_all_uses(alloc, &mut names, &classes)?;
        Ok(ClassPath {
            classes,
            names,
            known,
        })
    }

    /// The classes that were given, and behind them those that were found.
    pub fn classes(&self) -> &[Class]
        ensures { result.now ≡ self.now.classes }
    {
        &self.classes
    }

    /// The name that is to be looked for next, if there is one.
    pub fn next_name(&self) -> Option<&Name>
        ensures name { option_map (λ name. name.now) result ≡ next_name self.now }
        ensures few { length self.now.known < 2 ^ 64 }
    {
        self.names.get_index(self.known)
    }

    /// The class of the next name was found.
    pub fn found(self, alloc: Global, class: Class) -> Result<ClassPath, AllocError>
        requires { next_name self ≡ Some class.name }
        ensures { IfOk result (λ path. path ≡ looked_for self class.name (Some class)) }
    {
        let ClassPath {
            mut classes,
            mut names,
            known,
        } = self;
        let known = with_next(&names, known);
        keep_uses(alloc, &mut names, &class)?;
        classes.push(class)?;
        Ok(ClassPath {
            classes,
            names,
            known,
        })
    }

    /// The class of the next name was not found.
    pub fn not_found(self) -> ClassPath
        requires { IsSome (next_name self) }
        ensures { option_map (λ name. looked_for self name None) (next_name self) ≡ Some result }
    {
        let ClassPath {
            classes,
            names,
            known,
        } = self;
        let known = with_next(&names, known);
        ClassPath {
            classes,
            names,
            known,
        }
    }
}
