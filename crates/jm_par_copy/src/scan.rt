// One round of a copier over its own objects.

ghost use Rattle.std.specs.Prelude.{◌≡◌, ℕ, ◌<◌, List, Some, IfOk, OnOk, slice_get, true};
ghost use Rattle.jm_values.specs.declared.value.Value.TheVariants.{Ref};
ghost use Rattle.jm_heap.specs.Packing.{Fits, kind_of};
ghost use Rattle.jm_blocks.specs.Objects.{Object};
ghost use Rattle.jm_copy.specs.Copies.{HasMade, made};
ghost use Rattle.jm_copy.specs.Naming.{NamesNext};
ghost use Rattle.jm_copy.specs.Marks.{AllPassed, AreMarks, BecomesValue, OthersStay, at};
ghost use Rattle.jm_copy.specs.Pointing.{IsListed, points_to};
ghost use Rattle.jm_par_copy.specs.Claiming.{KeepsClaiming};
ghost use Rattle.jm_par_copy.specs.declared.scan.End.TheVariants.{All};
ghost use Rattle.jm_par_copy.specs.Steps.{CanForward, IsAtScan, IsAtWork, Learns, ScansOn, WorksAtObject, WorksAtValue};

use crate::front::is_stop;
use crate::gate::Gate;
use crate::round::{Own, Round};
use crate::step::forward;
use jm_copy::{Marks, Named, next, next_after, note, pass_on};
use jm_values::{Place, Value};
use std::alloc::{AllocError, Global};

/// How many objects of a block have a number.
const OBJECTS: u64 = 256;

// Forwards a reference of an object of the copier's own, of which all values before it are forwarded, and answers
// whether it names a young object afterwards.
#[inline(always)]
fn forward_named<G: Gate>(
    alloc: Global,
    round: &Round<'_, G>,
    own: &mut Own,
    place: Place,
    named: Named,
) -> Result<bool, AllocError>
    requires claims { CanForward round.now own.old }
    requires working { IsAtWork round.now (λ done. at done place named.number) own.old }
    requires there { (a : Object) × (made own.old.to place ≡ Some a) × (slice_get a.values named.number ≡ Some (Ref named.place)) × ((p : ℕ) → Fits (kind_of a.class) (Ref p)) }
    ensures working { OnOk result (WorksAtValue round.now own.old own.new place named.number) }
    ensures names { IfOk result (λ b. (a : Object) → made own.old.to place ≡ Some a → BecomesValue own.old.to own.new.to place named.number a b) }
    ensures others { OnOk result (OthersStay own.old.to own.new.to place) }
    ensures learns { OnOk result (Learns own.old own.new) }
    ensures on { KeepsClaiming own.old own.new }
{
    let copy = forward(alloc, round, own, named.place)?;
    own.to.set(place, named.number, Value::Ref(copy));
    Ok(own.to.is_young(copy))
}

// Forwards each reference of one object of the copier's own, of which the first is known, and answers whether one of them names a young object
// afterwards.
#[inline(always)]
fn scan_object<G: Gate>(
    alloc: Global,
    round: &Round<'_, G>,
    own: &mut Own,
    place: Place,
    first: Option<Named>,
) -> Result<bool, AllocError>
    requires claims { CanForward round.now own.old }
    requires working { IsAtWork round.now (λ done. at done place 0) own.old }
    requires first { (a : Object) → made own.old.to place ≡ Some a → NamesNext a 0 first }
    requires there { HasMade own.old.to place }
    ensures working { OnOk result (WorksAtObject round.now own.old own.new place) }
    ensures points { IfOk result (λ b. (a : Object) → made own.new.to place ≡ Some a → b ≡ points_to own.old.to.young.lane a.values) }
    ensures others { OnOk result (OthersStay own.old.to own.new.to place) }
    ensures learns { OnOk result (Learns own.old own.new) }
    ensures on { KeepsClaiming own.old own.new }
{
    let mut points = false;
    let mut next = first;
    while let Some(named) = next {
        let Named { number, end, .. } = named;
        let names = forward_named(alloc, round, own, place, named)?;
        points = points || names;
        next = own.to.named_after(place, number, end);
    }
    Ok(points)
}

// How many blocks are scanned with one that is another than the last.
#[inline]
fn count_block(blocks: usize, last: u64, block: u64) -> usize {
    if block == last {
        return blocks;
    }
    blocks.saturating_add(1)
}

/// Why a scan ended.
#[derive(Clone, Copy)]
pub enum End {
    /// Nothing is left.
    All,
    /// The limit of blocks is reached.
    Blocks,
    /// The next object is too much for one copier.
    Much,
}

impl End {
    /// Whether nothing is left.
    pub fn is_all(self) -> bool
        ensures { result ≡ true → self ≡ All }
    {
        match self {
            End::All => true,
            End::Blocks | End::Much => false,
        }
    }

    /// Whether the next object names much.
    pub fn is_much(self) -> bool {
        match self {
            End::Much => true,
            End::All | End::Blocks => false,
        }
    }
}

/// Scans the copier's own objects from two marks on, also those that the scan itself makes, until none is left, `limit`
/// blocks were scanned, or an object comes that is too much for one copier: the marks after
/// it, and why it ended. Of the old objects that it scans it lists the places of those that point to young ones.
pub fn scan_own<G: Gate>(
    alloc: Global,
    round: &Round<'_, G>,
    own: &mut Own,
    marks: Marks,
    pointing: &mut Vec<Place>,
    limit: usize,
) -> Result<(Marks, End), AllocError>
    requires claims { CanForward round.now own.old }
    requires marks { AreMarks own.old.to marks }
    requires scanning { IsAtScan round.now own.old marks }
    ensures scanning { IfOk result (λ r. ScansOn round.now own.old own.new marks r.0) }
    ensures marks { IfOk result (λ r. AreMarks own.new.to r.0) }
    ensures end { IfOk result (λ r. r.1 ≡ All → AllPassed own.new.to r.0) }
    ensures listed { IfOk result (λ r. IsListed own.old.to.young.lane own.old.to.tenured own.old.to.kept marks.tenured pointing.old.items → IsListed own.new.to.young.lane own.new.to.tenured own.new.to.kept r.0.tenured pointing.new.items) }
    ensures learns { OnOk result (Learns own.old own.new) }
    ensures on { KeepsClaiming own.old own.new }
{
    let mut marks = marks;
    let mut last = 0u64;
    let mut blocks = 0usize;
    let mut scanned = false;
    let mut first = next(&own.to, &marks);
    while let Some(place) = first {
        let block = place.number() / OBJECTS;
        blocks = count_block(blocks, last, block);
        last = block;
        if blocks > limit {
            return Ok((marks, End::Blocks));
        }
        let named = own.to.named_first(place);
        if is_stop(&round.from, &named, !scanned) {
            return Ok((marks, End::Much));
        }
        scanned = true;
        let points = scan_object(alloc, round, own, place, named)?;
        note(&own.to, place, points, pointing)?;
        pass_on(&own.to, &mut marks, place);
        first = next_after(&own.to, &marks, place);
    }
    Ok((marks, End::All))
}
