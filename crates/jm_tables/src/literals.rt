// The string literals of a program.

ghost use Rattle.std.specs.Prelude.{◌≡◌, IfOk};
ghost use Rattle.jm_world.specs.Loading.{literal_texts};
ghost use Rattle.jm_tables.specs.Texts.{number_of_text};

use crate::gathering::Gathering;
use jm_program::{Class, Sequence, Shared};
use std::alloc::{AllocError, Global};
use std::collections::BTreeMap;
use std::marker::Model;

/// The texts of a program's string literals, each once, by number.
#[derive(Drop)]
pub struct Literals<'a> {
    texts: Vec<Shared<Sequence<u16>>>,
    numbers: BTreeMap<&'a [u16], u32>,
}

impl<'a> Model for Literals<'a> {
    ghost use Rattle.std.specs.Prelude.{List, ℕ};
    ghost use Rattle.jm_tables.specs.Texts.{HasNumbers};

    ghost Value = { List (List ℕ) };

    ghost view = { λ l. l.texts.items };

    ghost invariant = { λ l. HasNumbers l.numbers l.texts.items };
}

impl<'a> Literals<'a> {
    /// The literals of the classes, in the order of the classes, of a class's constant fields and
    /// then its methods, and of their instructions; equal ones once, where the first one stands. The
    /// texts are shared with the classes: a text takes some 40 bytes whatever its length. The error
    /// leaves the classes as they are.
    pub fn of(alloc: Global, classes: &'a [Class]) -> Result<Literals<'a>, AllocError>
        ensures { IfOk result (λ literals. literals ≡ literal_texts classes.now) }
    {
        let mut gathering = Gathering {
            texts: Vec::new(alloc),
            numbers: BTreeMap::new(alloc),
        };
        for class in classes {
            gathering.add_class(class.parts())?;
        }
        let Gathering { texts, numbers } = gathering;
        Ok(Literals { texts, numbers })
    }

    /// The number of a text, from 0, if it is a literal's.
    pub fn number(&self, text: &'a [u16]) -> Option<u32>
        ensures { result ≡ number_of_text self.now text.now }
    {
        match self.numbers.get(&text) {
            Some(number) => Some(*number),
            None => None,
        }
    }

    /// The texts, by number.
    pub fn texts(&self) -> &[Shared<Sequence<u16>>]
        ensures { result.now ≡ self.now }
    {
        &self.texts
    }

    /// The texts, by number, moved out.
    pub fn into_texts(self) -> Vec<Shared<Sequence<u16>>>
        ensures { result.items ≡ self.entry }
    {
        self.texts
    }
}
