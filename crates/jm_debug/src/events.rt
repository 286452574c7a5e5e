// Events of a machine, one after the other.

ghost use Rattle.std.specs.Prelude.{◌≡◌, ◌≤◌, ◌-◌, ℕ, length, MatchResult};
ghost use Rattle.jm_world.specs.World.{World};
ghost use Rattle.jm_world.specs.Run.{After, after};
ghost use Rattle.jm_world.specs.declared.event.Event.TheVariants.{Step};
ghost use Rattle.jm_machine.specs.View.{MatchesWorld};
ghost use Rattle.jm_debug.specs.Texts.{kind_text};
ghost use Rattle.jm_debug.specs.Session.{ended, more};
ghost use Rattle.jm_debug.specs.Answering.{repeated};

use jm_heap::Heap;
use jm_machine::{Machine, OutOfMemory, StepsEnd};
use jm_world::{Event, ReplyKind};

/// The line of what an event came to.
#[tactic(auto, unfolding(crate::specs::Texts::kind_text))]
pub fn kind_line(kind: ReplyKind) -> &'static str
    ensures line { result.now ≡ ended (kind_text kind) }
    ensures short { length result.now ≤ 8 }
{
    match kind {
        ReplyKind::Done => "done\n",
        ReplyKind::Blocked => "blocked\n",
        ReplyKind::Ended => "ended\n",
        ReplyKind::None => "none\n",
        ReplyKind::Stopped => "stopped\n",
    }
}

/// Makes steps of a thread, as many as are asked for and at least one, in turns that are as long as the
/// steps are done, and says what the last one came to. `OutOfMemory`: a growth was refused; the steps
/// before stand.
pub fn make_steps<H: Heap>(
    machine: &mut Machine<H>,
    thread: u64,
    count: u32,
) -> Result<ReplyKind, OutOfMemory>
    ensures { (w : World) → MatchesWorld machine.old w → MatchResult result
        (λ kind. let made : After = more (count - 1) (Step thread) (after w (Step thread)) in MatchesWorld machine.new made.world × (kind ≡ made.reply.kind))
        (λ _. (made : ℕ) × (made ≤ count - 1) × MatchesWorld machine.new (repeated made (Step thread) w)) }
{
    let most = count.max(1) as usize;
    let mut made = 0;
    let mut kind = ReplyKind::Done;
    while made < most {
        let steps = machine.step_many(0, thread, most - made);
        match steps.end {
            StepsEnd::AllMade => return Ok(steps.reply.kind),
            StepsEnd::Other(reply) => {
                kind = reply.kind;
                made += steps.alike + 1;
            }
            StepsEnd::OutOfMemory => return Err(OutOfMemory),
        }
    }
    Ok(kind)
}
