// A film that is being made of a machine.

ghost use Rattle.std.specs.Prelude.{◌≡◌, ◌++◌, ◌⊎◌, MatchResult, OnOk, IfOk, OnErr};
ghost use Rattle.jm_world.specs.World.{World};
ghost use Rattle.jm_world.specs.Run.{after, run_from};
ghost use Rattle.jm_machine.specs.View.{MatchesWorld};
ghost use Rattle.jm_debug.specs.Texts.{kind_text};
ghost use Rattle.jm_page.specs.Data.{view_text};
ghost use Rattle.jm_page.specs.Filming.{all_told};
ghost use Rattle.jm_film.specs.Runs.{begun, event_written, filming_behind, moments_from, who_text};
ghost use Rattle.jm_film.specs.Shown.{view};

use crate::shown::view;
use jm_blocked_threads::{is_blocked, waiting_after};
use jm_heap::Heap;
use jm_machine::Machine;
use jm_page::Film;
use jm_world::{Event, Reply, ReplyKind};
use std::alloc::{AllocError, Global};
use std::marker::Model;

/// A film that is being made: the view behind the last event, how much of the output was told, and the
/// threads that were blocked at their last event.
#[derive(Drop)]
pub struct Filming {
    film: Film,
    waiting: Vec<u64>,
}

impl Model for Filming {
    ghost use Rattle.jm_film.specs.Runs.{FilmingView};

    ghost Value = { FilmingView };

    ghost view = { λ f. record { film = f.film; waiting = f.waiting.items } };
}

// Who makes an event: a thread's number, `minor` or `full`.
fn who(alloc: Global, event: Event) -> Result<String, AllocError>
    ensures { IfOk result (λ text. text.bytes.items ≡ who_text event) }
{
    match event {
        Event::Step(thread) => format!(in alloc; "{thread}"),
        Event::Minor => String::from_str(alloc, "minor"),
        Event::Full => String::from_str(alloc, "full"),
    }
}

// What an event came to.
#[tactic(auto, unfolding(jm_debug::specs::Texts::kind_text))]
fn kind_word(kind: ReplyKind) -> &'static str
    ensures { result.now ≡ kind_text kind }
{
    match kind {
        ReplyKind::Done => "done",
        ReplyKind::Blocked => "blocked",
        ReplyKind::Ended => "ended",
        ReplyKind::None => "none",
        ReplyKind::Stopped => "stopped",
    }
}

impl Filming {
    /// Begins a film with what is shown of a machine behind the event of a number, some of whose threads
    /// were blocked at their last event. `AllocError`: a growth was refused; a part of the view may be
    /// written then.
    pub fn begin<H: Heap>(
        alloc: Global,
        out: &mut Vec<u8>,
        machine: &Machine<H>,
        number: &str,
        waiting: Vec<u64>,
    ) -> Result<Filming, AllocError>
        ensures written { (w : World) → MatchesWorld machine.now w → OnOk result (out.new.items ≡ out.old.items ++ view_text number.now (view w waiting.items)) }
        ensures begun { (w : World) → MatchesWorld machine.now w → IfOk result (λ filming. filming ≡ begun w waiting.items) }
    {
        let sections = view(alloc, machine, &waiting)?;
        let film = Film::begin(out, number, machine.output(), sections)?;
        Ok(Filming { film, waiting })
    }

    // Writes an event that was made.
    fn tell<H: Heap>(
        &mut self,
        alloc: Global,
        out: &mut Vec<u8>,
        machine: &Machine<H>,
        event: Event,
        kind: ReplyKind,
    ) -> Result<(), AllocError>
        ensures written { (w : World) → MatchesWorld machine.now (after w event).world → kind ≡ (after w event).reply.kind
            → OnOk result (out.new.items ≡ out.old.items ++ event_written w self.old event) }
        ensures behind { (w : World) → MatchesWorld machine.now (after w event).world → kind ≡ (after w event).reply.kind
            → OnOk result (self.new ≡ filming_behind w self.old event) }
        ensures refused { OnErr result (self.new ≡ self.old) }
    {
        let waiting = waiting_after(alloc, &self.waiting, event, is_blocked(kind))?;
        let sections = view(alloc, machine, &waiting)?;
        let who = who(alloc, event)?;
        self.film.event(
            out,
            who.as_str(),
            kind_word(kind),
            machine.output(),
            sections,
        )?;
        self.waiting = waiting;
        Ok(())
    }

    /// Makes an event of the machine that is filmed, and writes it. `AllocError`: a growth was refused;
    /// the film is as it was, a part of the event may be written, and the event was made or not.
    pub(crate) fn event<H: Heap>(
        &mut self,
        alloc: Global,
        out: &mut Vec<u8>,
        machine: &mut Machine<H>,
        event: Event,
    ) -> Result<Reply, AllocError>
        ensures made { (w : World) → MatchesWorld machine.old w → MatchResult result
            (λ reply. MatchesWorld machine.new (after w event).world × (reply ≡ (after w event).reply))
            (λ _. MatchesWorld machine.new w ⊎ MatchesWorld machine.new (after w event).world) }
        ensures written { (w : World) → MatchesWorld machine.old w → OnOk result (out.new.items ≡ out.old.items ++ event_written w self.old event) }
        ensures behind { (w : World) → MatchesWorld machine.old w → OnOk result (self.new ≡ filming_behind w self.old event) }
        ensures refused { OnErr result (self.new ≡ self.old) }
    {
        let Ok(reply) = machine.step(event) else {
            return Err(AllocError);
        };
        self.tell(alloc, out, machine, event, reply.kind)?;
        Ok(reply)
    }

    /// Makes events, one after the other, and writes each: the data are the fold over the run's events.
    /// `AllocError`: a growth was refused; some of the events were made and written, and a part of one
    /// may be.
    pub fn events<H: Heap>(
        &mut self,
        alloc: Global,
        out: &mut Vec<u8>,
        machine: &mut Machine<H>,
        events: &[Event],
    ) -> Result<(), AllocError>
        ensures written { (w : World) → MatchesWorld machine.old w
            → OnOk result (out.new.items ≡ out.old.items ++ all_told self.old.film (moments_from w self.old.waiting events.now)) }
        ensures made { (w : World) → MatchesWorld machine.old w → OnOk result (MatchesWorld machine.new (run_from w events.now)) }
    {
        for next in events {
            self.event(alloc, out, machine, *next)?;
        }
        Ok(())
    }
}
