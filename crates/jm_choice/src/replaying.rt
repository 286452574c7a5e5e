// The events of a record, made again.

ghost use Rattle.std.specs.Prelude.{◌≡◌, ◌≢◌, IsFalse, IsTrue};
ghost use Rattle.jm_machine.specs.View.{MatchesWorld};
ghost use Rattle.jm_schedule.specs.Records.{entries_of_run};
ghost use Rattle.jm_world.specs.World.{World};
ghost use Rattle.jm_world.specs.declared.event.Event.TheVariants.{Step};
ghost use Rattle.jm_world.specs.declared.reply.ReplyKind.TheVariants.{Done};
ghost use Rattle.jm_choice.specs.Replays.{Replays};

use jm_heap::Heap;
use jm_machine::{Machine, OutOfMemory, StepsEnd};
use jm_schedule::{Record, RecordRun};
use jm_world::{Event, ReplyKind};

fn is_kind(kind: ReplyKind, wanted: ReplyKind) -> bool
    ensures same { IsTrue result → kind ≡ wanted }
    ensures other { IsFalse result → kind ≢ wanted }
{
    kind == wanted
}

// Makes the events of a run one by one.
fn replay_each<H: Heap>(
    machine: &mut Machine<H>,
    run: RecordRun,
) -> Result<Option<u64>, OutOfMemory>
    ensures { (w : World) → MatchesWorld machine.old w → Replays w (entries_of_run run) machine.new result }
{
    for made in 0..run.count {
        match machine.step_at(usize::from(run.seat), run.event) {
            Ok(reply) => {
                if !is_kind(reply.kind, run.kind) {
                    return Ok(Some(run.line + made));
                }
            }
            Err(fault) => return Err(fault),
        }
    }
    Ok(None)
}

// Makes the events of a run: steps of a thread that are done, in as few calls as may be.
fn replay_steps<H: Heap>(
    machine: &mut Machine<H>,
    run: RecordRun,
    thread: u64,
) -> Result<Option<u64>, OutOfMemory>
    requires event { run.event ≡ Step thread }
    requires kind { run.kind ≡ Done }
    ensures { (w : World) → MatchesWorld machine.old w → Replays w (entries_of_run run) machine.new result }
{
    let mut made = 0;
    while made < run.count {
        let steps = machine.step_many(usize::from(run.seat), thread, (run.count - made) as usize);
        match steps.end {
            StepsEnd::AllMade => return Ok(None),
            StepsEnd::OutOfMemory => return Err(OutOfMemory),
            StepsEnd::Other(reply) => {
                made += steps.alike as u64;
                if !is_kind(reply.kind, ReplyKind::Done) {
                    return Ok(Some(run.line + made));
                }
                made += 1;
            }
        }
    }
    Ok(None)
}

fn replay_run<H: Heap>(machine: &mut Machine<H>, run: RecordRun) -> Result<Option<u64>, OutOfMemory>
    ensures { (w : World) → MatchesWorld machine.old w → Replays w (entries_of_run run) machine.new result }
{
    match (run.event, run.kind) {
        (Event::Step(thread), ReplyKind::Done) => replay_steps(machine, run, thread),
        _ => replay_each(machine, run),
    }
}

/// Makes the events of a record, in order, and answers the number of the first line whose kind is
/// not that of its reply; its event is the last that is made. `OutOfMemory`: a growth was refused at
/// an event; the machine is where those before it lead.
pub fn replay<H: Heap>(
    machine: &mut Machine<H>,
    record: &Record,
) -> Result<Option<u64>, OutOfMemory>
    ensures { (w : World) → MatchesWorld machine.old w → Replays w record.now machine.new result }
{
    let (runs, last) = record.runs();
    for run in runs {
        match replay_run(machine, *run) {
            Ok(None) => {}
            Ok(Some(line)) => return Ok(Some(line)),
            Err(fault) => return Err(fault),
        }
    }
    replay_run(machine, last)
}
