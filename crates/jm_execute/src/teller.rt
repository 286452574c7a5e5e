// What is told of a run while its events are made.

ghost use Rattle.std.specs.Prelude.{OnOk};
ghost use Rattle.jm_film.specs.FilmPages.{film_page};
ghost use Rattle.jm_machine.specs.View.{MatchesWorld};
ghost use Rattle.jm_page.specs.Writing.{Puts};
ghost use Rattle.jm_world.specs.Run.{run_from};
ghost use Rattle.jm_world.specs.World.{World};
ghost use Rattle.jm_execute.specs.Tellings.{Telling, film_telling, trace_telling, why_telling};

use jm_events::EventsDue;
use jm_film::{Window, write_film};
use jm_heap::Heap;
use jm_machine::Machine;
use jm_page::{PageFault, PageWriter, Source};
use jm_trace::{Shown, write_trace};
use jm_why::write_why;
use std::alloc::Global;

/// Tells of a run while its events are made.
pub trait Teller {
    ghost telling: { Self → Telling };

    /// Makes events that are due from a machine's world on and writes what is told of them. `OutOfMemory`: a growth was
    /// refused; a beginning of the text is written then. `WriteFailed`: a write failed; of what is written a beginning of
    /// the text is known.
    fn tell<H: Heap, S: EventsDue, P: PageWriter>(
        &self,
        alloc: Global,
        machine: &mut Machine<H>,
        events: &mut S,
        page: &mut P,
    ) -> Result<(), PageFault>
        ensures written { (w : World) → MatchesWorld machine.old w → S.knows events.old w
            → Puts P.wrote P.broke result page.old ((telling self.now).text w (S.due events.old w)) page.new }
        ensures made { (w : World) → MatchesWorld machine.old w → S.knows events.old w
            → OnOk result (MatchesWorld machine.new (run_from w ((telling self.now).made (S.due events.old w)))) };
}

/// The page of a film, of the events in a window and with these sources.
#[derive(Clone, Copy)]
pub struct FilmTeller<'a> {
    pub window: Window,
    pub sources: &'a [Source],
}

impl Teller for FilmTeller<'_> {
    ghost telling = { λ f. film_telling f.window f.sources.now };

    fn tell<H: Heap, S: EventsDue, P: PageWriter>(
        &self,
        alloc: Global,
        machine: &mut Machine<H>,
        events: &mut S,
        page: &mut P,
    ) -> Result<(), PageFault> {
        write_film(alloc, machine, events, self.window, self.sources, page)
    }
}

/// A line for each event that is shown.
#[derive(Clone, Copy)]
pub struct TraceTeller {
    pub shown: Shown,
}

impl Teller for TraceTeller {
    ghost telling = { λ t. trace_telling t.shown };

    fn tell<H: Heap, S: EventsDue, P: PageWriter>(
        &self,
        alloc: Global,
        machine: &mut Machine<H>,
        events: &mut S,
        page: &mut P,
    ) -> Result<(), PageFault> {
        write_trace(alloc, machine, events, self.shown, page)
    }
}

/// How the run ended, and where.
#[derive(Clone, Copy)]
pub struct WhyTeller {
    /// The most events of turns; `None` where a schedule spells the events.
    pub limit: Option<u64>,
}

impl Teller for WhyTeller {
    ghost telling = { λ t. why_telling t.limit };

    fn tell<H: Heap, S: EventsDue, P: PageWriter>(
        &self,
        alloc: Global,
        machine: &mut Machine<H>,
        events: &mut S,
        page: &mut P,
    ) -> Result<(), PageFault> {
        write_why(alloc, machine, events, self.limit, page)
    }
}
