// The status after a run.

ghost use Rattle.std.specs.Prelude.{◌≡◌, is_some};
ghost use Rattle.jm_world.specs.World.{World, thread_at};
ghost use Rattle.jm_machine.specs.Threads.{class_ended_by};
ghost use Rattle.jm_machine.specs.View.{MatchesWorld};
ghost use Rattle.jm_execute.specs.Reports.{any_ended_by, status_of};

use jm_explain::Status;
use jm_explore::{ended_status, stop_status};
use jm_heap::Heap;
use jm_machine::Machine;

// Whether an exception has ended the thread of a number.
fn is_ended_by<H: Heap>(machine: &Machine<H>, number: u64) -> bool
    ensures { (w : World) → MatchesWorld machine.now w → result ≡ is_some (class_ended_by (thread_at w number)) }
{
    machine.ended_by(number).is_some()
}

// Whether an exception has ended a thread.
fn any_ended_by<H: Heap>(machine: &Machine<H>) -> bool
    ensures { (w : World) → MatchesWorld machine.now w → result ≡ any_ended_by w.threads }
{
    for index in 0..machine.threads() {
        if is_ended_by(machine, index as u64 + 1) {
            return true;
        }
    }
    false
}

/// The status after a run: of its stop, or else of a thread that has not ended, or else of one that
/// an exception has ended.
#[tactic(auto, unfolding(crate::specs::Reports::status_of))]
pub fn status_of<H: Heap>(machine: &Machine<H>) -> Status
    ensures { (w : World) → MatchesWorld machine.now w → result ≡ status_of w }
{
    match machine.stop() {
        Some(stop) => stop_status(stop),
        None => {
            if machine.live() != 0 {
                Status::NotEnded
            } else {
                ended_status(any_ended_by(machine))
            }
        }
    }
}
