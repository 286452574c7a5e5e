// Turns of threads.

ghost use Rattle.std.specs.Prelude.{◌≡◌, None};
ghost use Rattle.jm_explore.specs.Switches.{next_turn, turn_from};

/// The last events of a schedule that are of one thread, one after the other: a turn ends with its
/// slice.
#[derive(Clone, Copy)]
pub struct Turn {
    pub thread: u64,
    /// How many they are.
    pub events: usize,
}

// The turn of the next event, with slices of so many events.
pub(crate) fn next_turn(slice: usize, last: Option<Turn>, thread: u64) -> Turn
    ensures { result ≡ next_turn slice last thread }
{
    let Some(turn) = last else {
        return Turn { thread, events: 1 };
    };
    if turn.thread == thread && turn.events < slice {
        Turn {
            thread,
            events: turn.events + 1,
        }
    } else {
        Turn { thread, events: 1 }
    }
}

// The turn in which the events of a schedule leave.
pub(crate) fn last_turn(slice: usize, path: &[u64]) -> Option<Turn>
    ensures { result ≡ turn_from slice None path.now }
{
    let mut last = None;
    for thread in path {
        last = Some(next_turn(slice, last, *thread));
    }
    last
}
