// The scan over the two stores that are filled.

ghost use Rattle.std.specs.Prelude.{◌≡◌, ◌≢◌, ◌<◌, ◌^◌, ◌++◌, ◌∷◌, ◌||◌, [], Some, MatchOption, IfOk, OnOk, if◌then◌else◌};
ghost use Rattle.jm_blocks.specs.Objects.{Object};
ghost use Rattle.jm_blocks.specs.Places.{lane_of};
ghost use Rattle.jm_copy.specs.Copying.{IsScanned, Progress};
ghost use Rattle.jm_copy.specs.Copies.{Extends, HasMade, IsCopying, IsMark, IsSource, made};
ghost use Rattle.jm_copy.specs.Pointing.{ListsAbove, points_to};
ghost use Rattle.jm_copy.specs.Marks.{OthersStay, ScansObject, at, mark_of, passed, progress, first_marks, AllPassed, AreMarks, IsNext, IsNextOf, IsPassed};

use crate::copies::Copies;
use crate::forward::forward_named;
use crate::source::Source;
use jm_blocks::{BlockStore, Position};
use jm_values::Place;
use std::alloc::{AllocError, Global};

/// In each of the two stores the last object that was scanned, or one before all that are to be.
#[derive(Clone, Copy)]
pub struct Marks {
    pub young: Option<Place>,
    pub tenured: Option<Place>,
}

/// The first object of a store after a mark, which is the place of an object there, or before all.
pub fn next_of(store: &BlockStore, mark: &Option<Place>) -> Option<Place>
    requires { IsMark store.now mark.now }
    ensures { MatchOption result (IsPassed store.now mark.now) (λ p. IsNextOf store.now mark.now p) }
{
    match mark {
        None => store.first(),
        Some(place) => store.after(*place),
    }
}

/// A new object that is not scanned, and before which all of its store are.
pub fn next(to: &Copies, marks: &Marks) -> Option<Place>
    requires marks { AreMarks to.now marks.now }
    requires apart { to.now.tenured.lane ≢ to.now.young.lane }
    ensures { MatchOption result (AllPassed to.now marks.now) (λ p. IsNext to.now marks.now p) }
{
    if let Some(place) = next_of(&to.young, &marks.young) {
        return Some(place);
    }
    next_of(&to.tenured, &marks.tenured)
}

/// A new object that is not scanned, after one was: the next one of its block, where there is one.
#[inline(always)]
pub fn next_after(to: &Copies, marks: &Marks, place: Place) -> Option<Place>
    requires marks { AreMarks to.now marks.now }
    requires apart { to.now.tenured.lane ≢ to.now.young.lane }
    requires there { HasMade to.now place }
    requires passed { mark_of to.now.young.lane marks.now place ≡ Some place }
    ensures { MatchOption result (AllPassed to.now marks.now) (λ p. IsNext to.now marks.now p) }
{
    if let Some(beside) = to.beside(place) {
        return Some(beside);
    }
    next(to, marks)
}

/// The marks after an object was scanned, which lie where they lay.
#[inline(always)]
pub fn pass_on(to: &Copies, marks: &mut Marks, place: Place)
    ensures value { marks.new ≡ passed to.now.young.lane marks.old place }
    ensures below { place < 2 ^ 63 }
{
    let _number = place.number();
    if Position::of(place).lane == to.young.lane() {
        marks.young = Some(place);
        return;
    }
    marks.tenured = Some(place);
}

// Forwards each reference of one new object, and answers whether one of them names a young one afterwards.
#[inline(always)]
fn scan_object(
    alloc: Global,
    from: Source<'_>,
    to: &mut Copies,
    place: Place,
) -> Result<bool, AllocError>
    requires source { IsSource from.stores.now from.numbers.now }
    requires copying { (done : Progress) × IsCopying from.stores.now from.roots.now to.old (at done place 0) }
    requires there { HasMade to.old place }
    ensures copying { OnOk result (ScansObject from.entry.stores.now from.entry.roots.now to.old to.new place) }
    ensures points { IfOk result (λ b. (a : Object) → made to.new place ≡ Some a → b ≡ points_to to.old.young.lane a.values) }
    ensures passed { OnOk result (OthersStay to.old to.new place) }
    ensures extends { Extends from.entry.stores.now to.old to.new }
{
    let mut points = false;
    let mut next = to.named_first(place);
    while let Some(named) = next {
        let names = forward_named(alloc, from, to, place, named.number, named.place)?;
        points = points || names;
        next = to.named_after(place, named.number, named.end);
    }
    Ok(points)
}

/// Lists the place of an object that was scanned, if it is an old one and points to a young one.
#[inline]
pub fn note(
    to: &Copies,
    place: Place,
    points: bool,
    places: &mut Vec<Place>,
) -> Result<(), AllocError>
    ensures young { OnOk result (lane_of place ≡ to.now.young.lane → places.new.items ≡ places.old.items) }
    ensures old { OnOk result (lane_of place ≢ to.now.young.lane → places.new.items ≡ (if points then places.old.items ++ place ∷ [] else places.old.items)) }
{
    if !points {
        return Ok(());
    }
    if to.is_young(place) {
        return Ok(());
    }
    places.push(place)?;
    Ok(())
}

/// Scans all new objects, also those that the scan itself makes, and lists the places of the promoted
/// ones that point to young ones, each once.
pub fn scan(alloc: Global, from: Source<'_>, to: &mut Copies) -> Result<Vec<Place>, AllocError>
    requires source { IsSource from.stores.now from.numbers.now }
    requires copying { IsCopying from.stores.now from.roots.now to.old (progress to.old.young.lane (first_marks to.old)) }
    ensures copying { OnOk result ((done : Progress) × IsCopying from.entry.stores.now from.entry.roots.now to.new done × IsScanned (made to.new) done) }
    ensures listed { IfOk result (λ places. ListsAbove to.new.young.lane to.new.tenured to.new.kept places.items) }
    ensures extends { Extends from.entry.stores.now to.old to.new }
{
    let mut marks = Marks {
        young: None,
        tenured: to.kept,
    };
    let mut pointing = Vec::new(alloc);
    let mut first = next(to, &marks);
    while let Some(place) = first {
        let points = scan_object(alloc, from, to, place)?;
        note(to, place, points, &mut pointing)?;
        pass_on(to, &mut marks, place);
        first = next_after(to, &marks, place);
    }
    Ok(pointing)
}
