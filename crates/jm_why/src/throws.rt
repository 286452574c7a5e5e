// Throws of exceptions, of each thread those since it had none pending.

ghost use Rattle.std.specs.Prelude.{◌≡◌, ◌++◌, IfOk, OnOk};
ghost use Rattle.jm_world.specs.World.{World};
ghost use Rattle.jm_machine.specs.View.{MatchesWorld};
ghost use Rattle.jm_why.specs.Answers.{throws_of};
ghost use Rattle.jm_why.specs.Kept.{beside, newly, pending_before, throw_text, throws_behind};

use crate::frames::write_frames;
use jm_heap::Heap;
use jm_machine::Machine;
use jm_trace::write_thrown;
use jm_world::Event;
use std::alloc::{AllocError, Global};
use std::fmt::Write;
use std::marker::Model;

/// What is told of a throw of a thread.
#[derive(Drop)]
pub struct Throw {
    thread: u64,
    text: String,
}

impl Model for Throw {
    ghost use Rattle.std.specs.String.{string_bytes};
    ghost use Rattle.jm_why.specs.Kept.{ThrowView};

    ghost Value = { ThrowView };

    ghost view = { λ t. record { thread = t.thread; text = string_bytes t.text } };
}

/// What is pending before an event of its thread.
pub fn pending_before<H: Heap>(machine: &Machine<H>, event: Event) -> Option<u64>
    ensures { (w : World) → MatchesWorld machine.now w → result ≡ pending_before w event }
{
    match event {
        Event::Step(thread) => machine.pending(thread),
        Event::Minor | Event::Full => None,
    }
}

// An exception that is pending behind an event, and was not before it.
fn newly(before: Option<u64>, behind: Option<u64>) -> Option<u64>
    ensures { result ≡ newly before behind }
{
    let thrown = behind?;
    match before {
        Some(pending) if pending == thrown => None,
        _ => Some(thrown),
    }
}

// What is told of a throw by the event of a number, in the world behind it.
#[tactic(auto, unfolding(crate::specs::Kept::throw_text))]
fn throw_of_thread<H: Heap>(
    alloc: Global,
    machine: &Machine<H>,
    number: u64,
    thread: u64,
    thrown: u64,
) -> Result<Throw, AllocError>
    ensures { (w : World) → MatchesWorld machine.now w
        → IfOk result (λ t. t ≡ record { thread = thread; text = throw_text number w thread thrown }) }
{
    let mut text = String::new(alloc);
    write!(text, "event {number} throws ")?;
    write_thrown(alloc, &mut text, machine, thrown)?;
    text.push_str("\n")?;
    write_frames(&mut text, machine, thread)?;
    Ok(Throw { thread, text })
}

// Takes the throws of a thread away, unless a new one comes of the last of them.
fn leave_beside(throws: &mut Vec<Throw>, before: Option<u64>, thread: u64)
    ensures { throws.new.items ≡ beside before thread throws.old.items }
{
    match before {
        Some(_) => {}
        None => throws.retain(|other| other.thread != thread),
    }
}

/// Keeps what the event of a number has thrown, if it has, in the world behind it. `AllocError`: a growth was refused.
pub fn keep_throws<H: Heap>(
    alloc: Global,
    throws: &mut Vec<Throw>,
    machine: &Machine<H>,
    number: u64,
    event: Event,
    before: Option<u64>,
) -> Result<(), AllocError>
    ensures { (w : World) → MatchesWorld machine.now w
        → OnOk result (throws.new.items ≡ throws_behind throws.old.items number before w event) }
{
    match event {
        Event::Step(thread) => {
            let Some(thrown) = newly(before, machine.pending(thread)) else {
                return Ok(());
            };
            let throw = throw_of_thread(alloc, machine, number, thread, thrown)?;
            leave_beside(throws, before, thread);
            throws.push(throw)?;
            Ok(())
        }
        Event::Minor | Event::Full => Ok(()),
    }
}

/// Writes what is told of the throws of a thread. `AllocError`: a growth was refused.
pub fn write_throws_of(out: &mut String, throws: &[Throw], thread: u64) -> Result<(), AllocError>
    ensures { OnOk result (out.new.bytes.items ≡ out.old.bytes.items ++ throws_of throws.now thread) }
{
    for throw in throws {
        if throw.thread == thread {
            out.push_str(throw.text.as_str())?;
        }
    }
    Ok(())
}
