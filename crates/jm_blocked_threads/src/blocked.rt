// The threads that were blocked at their last event.

ghost use Rattle.std.specs.Prelude.{◌≡◌, IfOk, nat_eq, not};
ghost use Rattle.std.specs.List.{filter};
ghost use Rattle.jm_world.specs.RoundRobin.{is_blocked};
ghost use Rattle.jm_world.specs.declared.event.Event.TheVariants.{Step};
ghost use Rattle.jm_blocked_threads.specs.Blocked.{is_waiting, waiting_after};

use jm_world::{Event, ReplyKind};
use std::alloc::{AllocError, Global};

/// Whether an event was blocked.
pub fn is_blocked(kind: ReplyKind) -> bool
    ensures { result ≡ is_blocked kind }
{
    match kind {
        ReplyKind::Blocked => true,
        ReplyKind::Done => false,
        ReplyKind::Ended => false,
        ReplyKind::None => false,
        ReplyKind::Stopped => false,
    }
}

// The numbers but one.
fn without(alloc: Global, waiting: &[u64], thread: u64) -> Result<Vec<u64>, AllocError>
    ensures { IfOk result (λ left. left.items ≡ filter (λ m. not (nat_eq m thread)) waiting.now) }
{
    let mut left = Vec::from_slice(alloc, waiting)?;
    left.retain(|other| *other != thread);
    Ok(left)
}

/// The threads that were blocked at their last event, after one more event, which was blocked or not.
/// `AllocError`: a growth was refused.
pub fn waiting_after(
    alloc: Global,
    waiting: &[u64],
    event: Event,
    blocked: bool,
) -> Result<Vec<u64>, AllocError>
    ensures { IfOk result (λ next. next.items ≡ waiting_after waiting.now event blocked) }
{
    match event {
        Event::Step(thread) => waiting_after_step(alloc, waiting, thread, blocked),
        Event::Minor => Vec::from_slice(alloc, waiting),
        Event::Full => Vec::from_slice(alloc, waiting),
    }
}

// The same after a step.
fn waiting_after_step(
    alloc: Global,
    waiting: &[u64],
    thread: u64,
    blocked: bool,
) -> Result<Vec<u64>, AllocError>
    ensures { IfOk result (λ next. next.items ≡ waiting_after waiting.now (Step thread) blocked) }
{
    let mut next = without(alloc, waiting, thread)?;
    if blocked {
        next.insert(0, thread)?;
    }
    Ok(next)
}

/// Whether a thread was blocked at its last event.
pub fn is_waiting(waiting: &[u64], thread: u64) -> bool
    ensures { result ≡ is_waiting waiting.now thread }
{
    waiting.contains(&thread)
}
