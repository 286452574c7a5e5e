// A large array is scanned by all copiers together, each a span of it.

ghost use Rattle.std.specs.Prelude.{◌≡◌, ◌<◌, ◌≤◌, ◌++◌, ℕ, [], IfOk, OnOk, false, length};
ghost use Rattle.jm_par_copy.specs.Claiming.{KeepsClaiming};
ghost use Rattle.jm_par_copy.specs.Copiers.{NoneRefused};
ghost use Rattle.jm_par_copy.specs.Notes.{KeepsListed};
ghost use Rattle.jm_par_copy.specs.Round.{IsScan};
ghost use Rattle.jm_par_copy.specs.Spans.{AreForwardedReferences, AreSpans, spans_of};
ghost use Rattle.jm_par_copy.specs.Steps.{AllReach, AreReadyFor, Becomes, CanForward, IsAtWork, IsReadyFor, KeepsMade, Learns, MakeRounds, MakesRound, ReachesIfThere, WorksOn};

use crate::copier::{Copier, forward_own_roots};
use crate::gate::Gate;
use crate::round::{Own, Round};
use crate::step::forward;
use jm_heap::{Lies, Reference};
use jm_values::Value;
use std::alloc::{AllocError, Global};
use std::thread::{Threads, join_mut};

// What a reference becomes: null stays.
#[inline(always)]
fn forward_reference<G: Gate>(
    alloc: Global,
    round: &Round<'_, G>,
    own: &mut Own,
    reference: Reference,
) -> Result<Reference, AllocError>
    requires claims { CanForward round.now own.old }
    requires working { IsAtWork round.now (λ done. done) own.old }
    requires reached { ReachesIfThere round.now reference }
    ensures forwarded { IfOk result (λ q. Becomes round.now own.new reference q) }
    ensures place { IfOk result (λ q. 0 < reference → 0 < q) }
    ensures working { OnOk result (WorksOn round.now own.old own.new) }
    ensures learns { OnOk result (Learns own.old own.new) }
    ensures keeps { OnOk result (KeepsMade own.old own.new) }
    ensures on { KeepsClaiming own.old own.new }
{
    let Value::Ref(place) = reference.value() else {
        return Ok(reference);
    };
    let copy = forward(alloc, round, own, place)?;
    Ok(Reference::of(Value::Ref(copy)))
}

// What references become, in order.
fn forward_references<G: Gate>(
    alloc: Global,
    round: &Round<'_, G>,
    own: &mut Own,
    references: &[Reference],
    span: &mut Vec<Reference>,
) -> Result<(), AllocError>
    requires claims { CanForward round.now own.old }
    requires working { IsAtWork round.now (λ done. done) own.old }
    requires reach { AllReach round.now references.now }
    requires none { span.old.items ≡ [] }
    ensures forwarded { OnOk result (AreForwardedReferences round.now.from.stores.now own.new.seat.hand.known references.now span.new.items) }
    ensures working { OnOk result (WorksOn round.now own.old own.new) }
    ensures listed { OnOk result (KeepsListed own.old.to own.new.to) }
    ensures learns { OnOk result (Learns own.old own.new) }
    ensures on { KeepsClaiming own.old own.new }
{
    for number in 0..references.len() {
        let new = forward_reference(alloc, round, own, references[number])?;
        span.push(new)?;
    }
    Ok(())
}

// A copier that has forwarded its roots forwards its span.
fn forward_own_span<G: Gate>(
    alloc: Global,
    round: &Round<'_, G>,
    references: &[Reference],
    copier: &mut Copier,
)
    requires ready { IsReadyFor round.now copier.old }
    requires reach { AllReach round.now references.now }
    ensures scan { IsScan round.now.from.stores.now round.now.from.roots.now copier.old copier.new }
    ensures span { copier.new.refused ≡ false → AreForwardedReferences round.now.from.stores.now copier.new.own.seat.hand.known references.now copier.new.span.items }
{
    copier.ended = false;
    copier.span.clear();
    let Ok(()) = forward_references(alloc, round, &mut copier.own, references, &mut copier.span)
    else {
        copier.refused = true;
        return;
    };
}

// One round of a copier in which it forwards its span.
fn make_span<G: Gate>(
    alloc: Global,
    round: &Round<'_, G>,
    references: &[Reference],
    copier: &mut Copier,
)
    requires ready { IsReadyFor round.now copier.old }
    requires reach { AllReach round.now references.now }
    ensures round { MakesRound round.now copier.old copier.new }
    ensures span { copier.new.refused ≡ false → AreForwardedReferences round.now.from.stores.now copier.new.own.seat.hand.known references.now copier.new.span.items }
{
    let Ok(()) = forward_own_roots(alloc, round, copier) else {
        copier.refused = true;
        return;
    };
    forward_own_span(alloc, round, references, copier);
}

// The round of the only copier of a list.
fn make_one_span<G: Gate>(
    alloc: Global,
    round: &Round<'_, G>,
    references: &[Reference],
    copiers: &mut [Copier],
)
    requires one { length copiers.old ≡ 1 }
    requires ready { AreReadyFor round.now copiers.old }
    requires reach { AllReach round.now references.now }
    ensures rounds { MakeRounds round.now copiers.old copiers.new }
    ensures spans { NoneRefused copiers.new → AreSpans round.now.from.stores.now references.now copiers.new }
{
    make_span(alloc, round, references, &mut copiers[0]);
}

/// One round of all copiers, of whom there are some, each in a thread of its own, the last one in this thread: each forwards
/// its span of references that are reached, the spans of nearly one length and one behind the other.
pub fn make_spans<R: Threads, G: Gate + Sync>(
    rt: &R,
    alloc: Global,
    round: &Round<'_, G>,
    references: &[Reference],
    copiers: &mut [Copier],
)
    requires some { 0 < length copiers.old }
    requires ready { AreReadyFor round.now copiers.old }
    requires reach { AllReach round.now references.now }
    ensures rounds { MakeRounds round.now copiers.old copiers.new }
    ensures spans { NoneRefused copiers.new → AreSpans round.now.from.stores.now references.now copiers.new }
{
    if copiers.len() == 1 {
        make_one_span(alloc, round, references, copiers);
        return;
    }
    let (own, others) = references.split_at(references.len() / copiers.len());
    let (first, rest) = copiers.split_at_mut(1);
    join_mut(
        rt,
        &mut ||
            requires { (length first.now ≡ 1) × AreReadyFor round.now first.now × AllReach round.now own.now }
            ensures { MakeRounds round.entry.now first.entry.now first.exit.now × (NoneRefused first.exit.now → AreSpans round.entry.now.from.stores.now own.entry.now first.exit.now) }
        { make_one_span(alloc, round, own, first) },
        &mut ||
            requires { (0 < length rest.now) × AreReadyFor round.now rest.now × AllReach round.now others.now }
            ensures { MakeRounds round.entry.now rest.entry.now rest.exit.now × (NoneRefused rest.exit.now → AreSpans round.entry.now.from.stores.now others.entry.now rest.exit.now) }
        { make_spans(rt, alloc, round, others, rest) },
    );
}

/// The new references of all copiers, one span behind the other.
pub fn join_spans(alloc: Global, copiers: &[Copier]) -> Result<Vec<Reference>, AllocError>
    ensures { IfOk result (λ all. all.items ≡ spans_of copiers.now) }
{
    let mut all = Vec::new(alloc);
    for copier in copiers {
        all.extend_from_slice(copier.span.as_slice())?;
    }
    Ok(all)
}
