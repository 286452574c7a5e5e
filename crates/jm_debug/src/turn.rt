// Whose turn it is in a `continue`.

ghost use Rattle.std.specs.Prelude.{◌≡◌, ◌<◌, ◌+◌, ◌^◌, IfSome, Bool};
ghost use Rattle.jm_world.specs.RoundRobin.{live_from};
ghost use Rattle.jm_world.specs.World.{World};
ghost use Rattle.jm_machine.specs.View.{MatchesWorld};
ghost use Rattle.jm_debug.specs.Session.{Session, live_in_turn, turn_of, continue_from};
ghost use Rattle.jm_debug.specs.Answering.{IsThread, MovesBy};

use jm_heap::Heap;
use jm_machine::Machine;
use jm_world::ReplyKind;

/// Whose turn it is, or why it is no thread's.
#[derive(Clone, Copy)]
pub enum Turn {
    /// No thread is live.
    Ended,
    /// As many events in a row as threads are live were blocked.
    Blocked,
    /// It is the turn of the thread of this number.
    Of(u64),
}

/// What a turn came to.
#[derive(Drop)]
pub enum Moved {
    /// It is over: the line that tells why.
    Over(&'static str),
    /// It is over: the line of the break at which the thread of the turn stands.
    AtBreak(String),
    /// It goes on, after so many events, and so many blocked events in a row.
    On(usize, usize),
}

// The first live thread behind one. It asks each thread between the two.
fn live_behind<H: Heap>(machine: &Machine<H>, last: u64) -> Option<u64>
    ensures first { (w : World) → MatchesWorld machine.now w → result ≡ live_from (last + 1) 1 w.threads }
    ensures some { IfSome result (λ n. 0 < n) }
{
    for before in last..machine.threads() as u64 {
        if machine.is_live(before + 1) {
            return Some(before + 1);
        }
    }
    None
}

// The first live thread behind the last one that made an event, or else the first one.
fn live_in_turn<H: Heap>(machine: &Machine<H>, last: u64) -> Option<u64>
    ensures first { (w : World) → MatchesWorld machine.now w → result ≡ live_in_turn w (last + 1) }
    ensures some { IfSome result (λ n. 0 < n) }
{
    match live_behind(machine, last) {
        Some(thread) => Some(thread),
        None => live_behind(machine, 0),
    }
}

/// Whose turn it is behind the last thread that made an event, after so many blocked events in a row.
/// The live thread is looked for by number, among those that have ended too.
pub fn turn_of<H: Heap>(machine: &Machine<H>, last: u64, blocked: usize) -> Turn
    ensures turn { (s : Session) → MatchesWorld machine.now s.world → last + 1 ≡ s.cursor → result ≡ turn_of s blocked }
    ensures some { IsThread result }
{
    let Some(thread) = live_in_turn(machine, last) else {
        return Turn::Ended;
    };
    if blocked == machine.live() {
        Turn::Blocked
    } else {
        Turn::Of(thread)
    }
}

/// What the last of so many events of a turn makes of a `continue`.
pub fn moved_by(made: usize, kind: ReplyKind, blocked: usize) -> Moved
    requires { blocked < 2 ^ 32 }
    ensures { MovesBy made kind blocked result }
{
    match kind {
        ReplyKind::Stopped => Moved::Over("stopped\n"),
        ReplyKind::Blocked => Moved::On(made, blocked + 1),
        _ => Moved::On(made, 0),
    }
}

/// The line that tells why a `continue` makes no event any more, once it has made as many as it may.
pub fn last_line<H: Heap>(machine: &Machine<H>, last: u64, blocked: usize) -> &'static str
    ensures { (s : Session) (first : Bool) → MatchesWorld machine.now s.world → last + 1 ≡ s.cursor
        → (continue_from 0 first blocked s).answer ≡ Ok result.now }
{
    match turn_of(machine, last, blocked) {
        Turn::Ended => "ended\n",
        Turn::Blocked => "blocked\n",
        Turn::Of(_) => "limit\n",
    }
}
