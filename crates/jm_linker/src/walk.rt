// Walks from a name up, over superinterfaces and superclasses (JVMS 5.4.3).

ghost use Rattle.std.specs.Prelude.{◌≡◌, MatchResult, OnOk, Bool, List, None, suc, true, option_map};
ghost use Rattle.jm_program.specs.declared.class.ClassParts.{ClassParts};
ghost use Rattle.jm_world.specs.Classes.{height};
ghost use Rattle.jm_world.specs.Hierarchy.{chain};
ghost use Rattle.jm_linker.specs.Answers.{IsOutOfMemory};
ghost use Rattle.jm_linker.specs.Walks.{AllVain, Gives, Says, sought_in, above_any, first_along};

use crate::classes::Classes;
use crate::fault::LinkFault;
use crate::members::Members;
use crate::name::is_same;
use crate::parents::superclass_of;
use crate::sought::Sought;
use jm_program::{AccessFlags, Name};
use std::alloc::{AllocError, Global};
use std::collections::BTreeMap;

// Names that a walk has still to look at, and how many classes up it may go from them. Where they
// are the last ones above a class, its number stands with them.
#[derive(Clone, Copy)]
pub struct Pending<'a> {
    names: &'a [Name],
    depth: usize,
    below: Option<usize>,
}

impl<'a> Sought<'_, 'a> {
    /// Whether it is found in the class.
    pub fn is_in(&self, members: &Members<'a>) -> bool
        ensures { result ≡ sought_in self.now members.now.class.now }
    {
        match *self {
            Sought::Class(name) => is_same(&members.class.name, name),
            Sought::Field(sought) => members.field(&sought.key).is_some(),
            Sought::Method(sought) => members.method(&sought.key).is_some(),
            Sought::Instance(sought) => match members.method(&sought.key) {
                Some(found) => !found.method.flags.has(AccessFlags::STATIC),
                None => false,
            },
        }
    }
}

// Whether a walk up from the class of the number, over as many classes above it, was in vain.
fn is_tried(tried: &BTreeMap<usize, usize>, number: usize, depth: usize) -> bool
    ensures { (test : ClassParts → Bool) (program : List ClassParts) → AllVain test program tried.now → result ≡ true → Gives test (suc depth) program number None }
{
    match tried.get(&number) {
        Some(most) => depth <= *most,
        None => false,
    }
}

// Keeps that a walk was in vain, whose last names these were.
fn keep_tried(tried: &mut BTreeMap<usize, usize>, last: Pending<'_>) -> Result<(), AllocError>
    ensures { OnOk result ((test : ClassParts → Bool) (program : List ClassParts) → AllVain test program tried.old → Says test program last.entry None → AllVain test program tried.new) }
{
    if let Some(number) = last.below {
        tried.insert(number, last.depth)?;
    }
    Ok(())
}

/// The first class in which it is found, from one of the names up: the class itself, its
/// superinterfaces, its superclass, each with all above it.
pub fn find_above<'c, 'a>(
    alloc: Global,
    classes: &'c Classes<'a>,
    sought: &Sought<'_, 'a>,
    names: &'a [Name],
) -> Result<Option<&'c Members<'a>>, LinkFault>
    ensures { MatchResult result (λ c. option_map (λ m. m.now.class.now) c ≡ above_any (sought_in sought.now) (height classes.now.program.now) classes.now.program.now names.now) (λ fault. IsOutOfMemory fault) }
{
    let mut tried = BTreeMap::new(alloc);
    let mut pending = Vec::new(alloc);
    pending.push(Pending {
        names,
        depth: classes.height(),
        below: None,
    })?;
    for _ in 0..u64::MAX {
        let Some(next) = pending.pop() else {
            return Ok(None);
        };
        if next.depth == 0 {
            continue;
        }
        let depth = next.depth - 1;
        let Some((name, names)) = next.names.split_first() else {
            keep_tried(&mut tried, next)?;
            continue;
        };
        pending.push(Pending { names, ..next })?;
        let Some(number) = classes.class_number(name) else {
            continue;
        };
        if is_tried(&tried, number, depth) {
            continue;
        }
        let Some(members) = classes.members_numbered(number) else {
            continue;
        };
        if sought.is_in(members) {
            return Ok(Some(members));
        }
        let class = members.class;
        pending.push(Pending {
            names: superclass_of(class),
            depth,
            below: Some(number),
        })?;
        pending.push(Pending {
            names: class.interfaces.as_slice(),
            depth,
            below: None,
        })?;
    }
    Err(LinkFault::OutOfMemory)
}

/// The first class of a name and its superclasses in which it is found.
pub fn find_along<'c, 'a>(
    classes: &'c Classes<'a>,
    sought: &Sought<'_, 'a>,
    name: &'a Name,
) -> Option<&'c Members<'a>>
    ensures { option_map (λ m. m.now.class.now) result ≡ first_along (sought_in sought.now) (chain classes.now.program.now name.now) }
{
    let mut name = name;
    for _depth in 0..classes.height() {
        let members = classes.members(name)?;
        if sought.is_in(members) {
            return Some(members);
        }
        name = members.class.superclass.as_ref()?;
    }
    None
}
