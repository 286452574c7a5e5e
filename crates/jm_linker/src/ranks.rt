// Ranks of classes: none right above another has a higher one, and each class that is not above
// itself has a higher one than those that it extends and implements (JVMS 5.3.5).

ghost use Rattle.std.specs.Prelude.{◌≡◌, ◌&&◌, ◌<◌, ◌^◌};
ghost use Rattle.std.specs.List.{list_all};
ghost use Rattle.jm_linker.specs.Ranks.{rank_of, is_under, are_parents_under, is_over_parents, has_none_over};
ghost use Rattle.jm_linker.specs.BuiltInClasses.{built_in_classes};

use crate::classes::Classes;
use crate::parents::superclass_of;
use jm_program::{ClassParts, Name};
use std::alloc::{AllocError, Global};
use std::slice;

// The names above a class that a walk has still to look at.
#[derive(Clone, Copy)]
struct Pending<'a> {
    number: usize,
    superclass: &'a [Name],
    interfaces: &'a [Name],
}

impl<'a> Pending<'a> {
    // The next name, and what is left after it.
    fn split(self) -> Option<(&'a Name, Pending<'a>)> {
        if let Some((name, superclass)) = self.superclass.split_first() {
            return Some((name, Pending { superclass, ..self }));
        }
        let (name, interfaces) = self.interfaces.split_first()?;
        Some((name, Pending { interfaces, ..self }))
    }
}

// A walk from each class up, that finds the classes that are above one another (Tarjan's strongly
// connected components) and ranks them when all above them have their ranks. What it gives is
// checked by `are_ranks` and `is_over_parents`, so nothing need be known of it.
#[derive(Drop)]
struct Ranking<'a> {
    /// The ranks by the numbers of classes: 0 for a class that has none yet.
    ranks: Vec<u32>,
    /// When the walk came to a class: 0 for one that it has not come to.
    places: Vec<u32>,
    /// The lowest place above a class, among those of classes without a rank.
    lowest: Vec<u32>,
    /// The classes that the walk has come to and that have no rank, as it came to them.
    open: Vec<usize>,
    pending: Vec<Pending<'a>>,
    last_place: u32,
    last_rank: u32,
}

fn read(numbers: &[u32], number: usize) -> u32 {
    match numbers.get(number) {
        Some(found) => *found,
        None => 0,
    }
}

fn write(numbers: &mut [u32], number: usize, new: u32) {
    if let Some(found) = numbers.get_mut(number) {
        *found = new;
    }
}

impl<'a> Ranking<'a> {
    fn begin(&mut self, classes: &Classes<'a>, number: usize) -> Result<(), AllocError> {
        let Some(class) = classes.program.get(number) else {
            return Ok(());
        };
        self.last_place = self.last_place.saturating_add(1);
        write(&mut self.places, number, self.last_place);
        write(&mut self.lowest, number, self.last_place);
        self.open.push(number)?;
        let class = class.parts();
        self.pending.push(Pending {
            number,
            superclass: superclass_of(class),
            interfaces: class.interfaces.as_slice(),
        })?;
        Ok(())
    }

    // That a class is at least as low as the place.
    fn lower(&mut self, number: usize, place: u32) {
        if place < read(&self.lowest, number) {
            write(&mut self.lowest, number, place);
        }
    }

    // Gives one rank to the class and to all that the walk came to after it.
    fn rank(&mut self, number: usize) {
        self.last_rank = self.last_rank.saturating_add(1);
        for _ in 0..self.open.len() {
            let Some(open) = self.open.pop() else {
                return;
            };
            write(&mut self.ranks, open, self.last_rank);
            if open == number {
                return;
            }
        }
    }

    fn end(&mut self, number: usize) {
        let lowest = read(&self.lowest, number);
        if lowest == read(&self.places, number) {
            self.rank(number);
        }
        if let Some(below) = self.pending.last() {
            let below = below.number;
            self.lower(below, lowest);
        }
    }

    // Goes to the next class right above one, unless the walk has come to it.
    fn go_on(&mut self, classes: &Classes<'a>, next: Pending<'a>) -> Result<(), AllocError> {
        let Some((name, others)) = next.split() else {
            self.end(next.number);
            return Ok(());
        };
        self.pending.push(others)?;
        let Some(number) = classes.number(name) else {
            return Ok(());
        };
        let place = read(&self.places, number);
        if place == 0 {
            return self.begin(classes, number);
        }
        if read(&self.ranks, number) == 0 {
            self.lower(next.number, place);
        }
        Ok(())
    }

    // Walks from a class up, unless the walk has come to it.
    fn walk(&mut self, classes: &Classes<'a>, number: usize) -> Result<(), AllocError> {
        if read(&self.places, number) == 0 {
            self.begin(classes, number)?;
        }
        for _ in 0..u64::MAX {
            let Some(next) = self.pending.pop() else {
                return Ok(());
            };
            self.go_on(classes, next)?;
        }
        Ok(())
    }
}

/// The ranks of the program's classes by their numbers: the same rank for classes that are above
/// one another.
pub fn ranks_of<'a>(alloc: Global, classes: &Classes<'a>) -> Result<Vec<u32>, AllocError> {
    let count = classes.program.len();
    let mut ranking = Ranking {
        ranks: vec![in alloc; 0; count]?,
        places: vec![in alloc; 0; count]?,
        lowest: vec![in alloc; 0; count]?,
        open: Vec::new(alloc),
        pending: Vec::new(alloc),
        last_place: 0,
        last_rank: 0,
    };
    for number in 0..count {
        ranking.walk(classes, number)?;
    }
    Ok(ranking.ranks)
}

fn rank_of<'a>(classes: &Classes<'a>, ranks: &[u32], name: &'a Name) -> u64
    ensures value { result ≡ rank_of classes.now.program.now ranks.now name.now }
    ensures small { result < 2 ^ 32 }
{
    match classes.number(name) {
        Some(number) => match ranks.get(number) {
            Some(rank) => u64::from(*rank),
            None => 0,
        },
        None => 0,
    }
}

fn are_under<'a>(classes: &Classes<'a>, ranks: &[u32], rank: u64, names: &'a [Name]) -> bool
    ensures { result ≡ list_all (is_under classes.now.program.now ranks.now rank) names.now }
{
    for name in names {
        if rank_of(classes, ranks, name) >= rank {
            return false;
        }
    }
    true
}

fn are_parents_under<'a>(
    classes: &Classes<'a>,
    ranks: &[u32],
    rank: u64,
    class: &'a ClassParts,
) -> bool
    ensures { result ≡ are_parents_under classes.now.program.now ranks.now rank class.now }
{
    are_under(classes, ranks, rank, superclass_of(class))
        && are_under(classes, ranks, rank, class.interfaces.as_slice())
}

/// Whether the class has a higher rank than those right above it.
pub fn is_over_parents<'a>(classes: &Classes<'a>, ranks: &[u32], class: &'a ClassParts) -> bool
    ensures { result ≡ is_over_parents classes.now.program.now ranks.now class.now }
{
    let rank = rank_of(classes, ranks, &class.name);
    are_parents_under(classes, ranks, rank, class)
}

/// Whether no class right above another has a higher rank.
pub fn are_ranks<'a>(classes: &Classes<'a>, ranks: &[u32]) -> bool
    ensures { result ≡ (list_all (has_none_over classes.now.program.now ranks.now) classes.now.program.now
        && list_all (are_parents_under classes.now.program.now ranks.now 1) built_in_classes) }
{
    for class in classes.program {
        let class = class.parts();
        let rank = rank_of(classes, ranks, &class.name);
        if !are_parents_under(classes, ranks, rank + 1, class) {
            return false;
        }
    }
    let built_ins = classes.built_ins.as_slice();
    for members in built_ins {
        if !are_parents_under(classes, ranks, 1, members.class) {
            return false;
        }
    }
    true
}
