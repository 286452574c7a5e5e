// The status with which a run ends.

ghost use Rattle.std.specs.Prelude.{◌≡◌};
ghost use Rattle.jm_explore.specs.Outcomes.{told_end};
ghost use Rattle.jm_explore.specs.Statuses.{ended_status, outcome_status, stop_status};

use crate::outcome::{HowEnded, Outcome};
use jm_explain::Status;
use jm_world::Stop;

/// The status of a run that has stopped.
pub fn stop_status(stop: Stop) -> Status
    ensures { result ≡ stop_status stop }
{
    match stop {
        Stop::TagFault(_) => Status::TagFault,
        Stop::HeapFull | Stop::SerialsEnd => Status::HeapFull,
    }
}

/// The status of a run whose threads have all ended, by whether an exception has ended one of them.
pub fn ended_status(by_exception: bool) -> Status
    ensures { result ≡ ended_status by_exception }
{
    if by_exception {
        Status::EndedByException
    } else {
        Status::Done
    }
}

/// The status with which `jm run` ends where a run comes to this outcome.
pub fn outcome_status(outcome: &Outcome) -> Status
    ensures { result ≡ outcome_status (told_end outcome.now) }
{
    match outcome.how {
        HowEnded::Ended => ended_status(!outcome.ended_by.is_empty()),
        HowEnded::Stopped(stop) => stop_status(stop),
        HowEnded::Deadlock(_) | HowEnded::Cut => Status::NotEnded,
    }
}
