// Events of the threads of a machine.

ghost use Rattle.std.specs.Prelude.{◌≡◌, ℕ, IfOk, false};
ghost use Rattle.jm_machine.specs.View.{MatchesWorld};
ghost use Rattle.jm_world.specs.World.{World};
ghost use Rattle.jm_explore.specs.Branches.{Advances, GoesAmong, GoesOn, Leaves, WentIf};
ghost use Rattle.jm_explore.specs.Switches.{can_go, is_going, next_of, other_than, switch, switch_behind, switch_within};

use crate::branch::{Branch, push_live};
use crate::turn::Turn;
use jm_heap::Heap;
use jm_machine::{Machine, OutOfMemory};
use jm_world::{Event, ReplyKind};

fn is_going(kind: ReplyKind) -> bool
    ensures { result ≡ is_going kind }
{
    match kind {
        ReplyKind::Done | ReplyKind::Stopped => true,
        ReplyKind::Blocked | ReplyKind::Ended | ReplyKind::None => false,
    }
}

// Makes an event of a thread if it can go, and answers whether; if not, nothing changes.
pub(crate) fn went<H: Heap>(machine: &mut Machine<H>, thread: u64) -> Result<bool, OutOfMemory>
    ensures went { (w : World) → MatchesWorld machine.old w → IfOk result (λ went. (went ≡ can_go w thread) × WentIf went w thread machine.new) }
    ensures linked { machine.new.linked ≡ machine.old.linked }
{
    if machine.stop().is_some() {
        return Ok(false);
    }
    let reply = machine.step(Event::Step(thread))?;
    Ok(is_going(reply.kind))
}

// Adds the switches to threads other than one, if a switch is left.
fn push_switches<H: Heap>(
    machine: &Machine<H>,
    todo: &mut Vec<Branch>,
    behind: usize,
    thread: u64,
    left: usize,
) -> Result<(), OutOfMemory>
    ensures { (w : World) → MatchesWorld machine.now w → IfOk result (λ _. Leaves w (other_than thread) left behind thread todo.old.items todo.new.items) }
{
    if left == 0 {
        return Ok(());
    }
    push_live(machine, todo, behind, 0, thread, left - 1)?;
    Ok(())
}

// Makes an event of a thread if it can go; the switches to others are branches then.
fn go_on<H: Heap>(
    machine: &mut Machine<H>,
    todo: &mut Vec<Branch>,
    behind: usize,
    thread: u64,
    left: usize,
) -> Result<bool, OutOfMemory>
    ensures went { (w : World) → MatchesWorld machine.old w → IfOk result (λ went. GoesOn went w thread left behind todo.old.items todo.new.items machine.new) }
    ensures linked { machine.new.linked ≡ machine.old.linked }
{
    let kept = todo.len();
    push_switches(machine, todo, behind, thread, left)?;
    if went(machine, thread)? {
        return Ok(true);
    }
    todo.truncate(kept);
    Ok(false)
}

// Makes an event of the first thread that can go, above a number and up to another; the switches to
// others are branches then.
fn go_among<H: Heap>(
    machine: &mut Machine<H>,
    todo: &mut Vec<Branch>,
    behind: usize,
    from: usize,
    to: usize,
    left: usize,
) -> Result<Option<u64>, OutOfMemory>
    ensures went { (w : World) → MatchesWorld machine.old w → IfOk result (λ thread. GoesAmong w from to left behind todo.old.items todo.new.items machine.new thread) }
    ensures linked { machine.new.linked ≡ machine.old.linked }
{
    for index in from..to {
        let thread = index as u64 + 1;
        if go_on(machine, todo, behind, thread, left)? {
            return Ok(Some(thread));
        }
    }
    Ok(None)
}

// Behind a slice of a thread: makes an event of the next thread that can go.
fn go_behind<H: Heap>(
    machine: &mut Machine<H>,
    todo: &mut Vec<Branch>,
    behind: usize,
    last: u64,
    left: usize,
) -> Result<Option<u64>, OutOfMemory>
    ensures went { (w : World) → MatchesWorld machine.old w → IfOk result (λ thread. Advances w (switch_behind (next_of w last)) left behind todo.old.items todo.new.items machine.new thread) }
    ensures linked { machine.new.linked ≡ machine.old.linked }
{
    let last = last as usize;
    let threads = machine.threads();
    let above = go_among(machine, todo, behind, last, threads, left)?;
    match above {
        Some(thread) => Ok(Some(thread)),
        None => {
            let first = go_among(machine, todo, behind, 0, last, left)?;
            Ok(first)
        }
    }
}

// Makes an event of the first thread that can go; those above it are branches then, and cost nothing.
fn go_elsewhere<H: Heap>(
    machine: &mut Machine<H>,
    todo: &mut Vec<Branch>,
    behind: usize,
    skipped: u64,
    left: usize,
) -> Result<Option<u64>, OutOfMemory>
    ensures went { (w : World) → MatchesWorld machine.old w → can_go w skipped ≡ false → IfOk result (λ thread. Advances w (λ _. 0) left behind todo.old.items todo.new.items machine.new thread) }
    ensures linked { machine.new.linked ≡ machine.old.linked }
{
    for index in 0..machine.threads() {
        let thread = index as u64 + 1;
        let kept = todo.len();
        push_live(machine, todo, behind, index + 1, skipped, left)?;
        if went(machine, thread)? {
            return Ok(Some(thread));
        }
        todo.truncate(kept);
    }
    Ok(None)
}

// Within a slice of a thread: makes an event of it if it can go, else of the first one that can.
fn go_within<H: Heap>(
    machine: &mut Machine<H>,
    todo: &mut Vec<Branch>,
    behind: usize,
    last: u64,
    left: usize,
) -> Result<Option<u64>, OutOfMemory>
    ensures went { (w : World) → MatchesWorld machine.old w → IfOk result (λ thread. Advances w (switch_within w last) left behind todo.old.items todo.new.items machine.new thread) }
    ensures linked { machine.new.linked ≡ machine.old.linked }
{
    if go_on(machine, todo, behind, last, left)? {
        return Ok(Some(last));
    }
    let next = go_elsewhere(machine, todo, behind, last, left)?;
    Ok(next)
}

// Makes one event more, which is no switch: of the last thread if it can go and its slice is not
// over. What else could have been made is added to the branches.
pub(crate) fn advance<H: Heap>(
    machine: &mut Machine<H>,
    todo: &mut Vec<Branch>,
    behind: usize,
    slice: usize,
    last: Option<Turn>,
    left: usize,
) -> Result<Option<u64>, OutOfMemory>
    ensures went { (w : World) → MatchesWorld machine.old w → IfOk result (λ thread. Advances w (switch w slice last) left behind todo.old.items todo.new.items machine.new thread) }
    ensures linked { machine.new.linked ≡ machine.old.linked }
{
    let turn = match last {
        Some(turn) => turn,
        None => {
            let next = go_elsewhere(machine, todo, behind, 0, left)?;
            return Ok(next);
        }
    };
    let goes_on = turn.events < slice;
    if goes_on {
        let next = go_within(machine, todo, behind, turn.thread, left)?;
        return Ok(next);
    }
    let next = go_behind(machine, todo, behind, turn.thread, left)?;
    Ok(next)
}
