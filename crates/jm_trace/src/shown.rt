// Which events of a run are shown.

ghost use Rattle.std.specs.Prelude.{◌≡◌, ◌&&◌, nat_le, nat_lt};
ghost use Rattle.jm_trace.specs.Traces.{is_of, is_shown};

use jm_world::Event;

/// Which events of a run are shown.
#[derive(Clone, Copy)]
pub struct Shown {
    /// The thread whose steps alone are shown; `None` where all events are.
    pub thread: Option<u64>,
    /// The number of the first event that may be shown; the first of a run is 1.
    pub first: u64,
    /// The most events that are shown.
    pub most: u32,
}

// Whether an event is one of a thread, where one is asked for.
fn is_of(thread: Option<u64>, event: Event) -> bool
    ensures { result ≡ is_of thread event }
{
    match thread {
        None => true,
        Some(thread) => match event {
            Event::Step(number) => number == thread,
            Event::Minor => false,
            Event::Full => false,
        },
    }
}

/// Whether the event of a number is shown, where so many may still be.
pub fn is_shown(shown: Shown, number: u64, left: u32, event: Event) -> bool
    ensures { result ≡ is_shown shown number left event }
{
    shown.first <= number && 0 < left && is_of(shown.thread, event)
}
