// The debugger.

ghost use Rattle.std.specs.Prelude.{◌≡◌, ◌<◌, ◌-◌, ◌^◌, ℕ, false, true, MatchResult, OnOk, Some, option_map};
ghost use Rattle.jm_program.specs.Texts.{utf16_of};
ghost use Rattle.jm_world.specs.Run.{after};
ghost use Rattle.jm_world.specs.World.{World};
ghost use Rattle.jm_world.specs.declared.event.Event.TheVariants.{Step};
ghost use Rattle.jm_machine.specs.Collected.{Collects};
ghost use Rattle.jm_machine.specs.View.{MatchesWorld};
ghost use Rattle.jm_debug.specs.Session.{Session, session_of, continue_from, ended, more, replies, with_break, without_break, with_breaks, break_before, break_text, turn_of, turned};
ghost use Rattle.jm_debug.specs.Answering.{IsSession, Answers, CollectsAt, CollectsFor, Comes, ContinuesWithin, IsAlone, IsFew, IsMarked, Moves, Obeys, RepeatsWithin, StaysMarked};

use crate::breaks::{break_line, put_break, take_break};
use crate::command::Command;
use crate::events::{kind_line, make_steps};
use crate::fault::DebugFault;
use crate::frame::{locals, stack};
use crate::held_monitors::monitors;
use crate::instruction::is_place;
use crate::marks::marks_of;
use crate::place::Place;
use crate::reached_object::object;
use crate::reached_objects::heap;
use crate::static_fields::statics;
use crate::thread::frames;
use crate::turn::{Moved, Turn, last_line, moved_by, turn_of};
use jm_heap::Heap;
use jm_machine::{CodePlace, Machine, StepsEnd, StepsUpTo};
use jm_world::{Event, ReplyKind};
use std::alloc::Global;
use std::marker::Model;

/// How many events a `continue` makes at most.
const MOST_EVENTS: u32 = 1_000_000;

/// How long the line of a reply is at most.
const LONGEST_REPLY: usize = 8;

/// A machine with the breaks that are set in it, and the thread that made the last event of a
/// `continue`.
pub struct Debugger<H: Heap> {
    alloc: Global,
    machine: Machine<H>,
    breaks: Vec<Place>,
    /// 0 before the first event. Where a break has stopped a thread, the one before it.
    last: u64,
}

// Written out, so that whoever lets go of one makes a call (docs/DECISIONS.md).
impl<H: Heap + Drop> Drop for Debugger<H> {
    fn drop(self) {
        let Debugger {
            alloc: _,
            machine: _,
            breaks: _,
            last: _,
        } = self;
    }
}

impl<H: Heap> Model for Debugger<H> {
    ghost use Rattle.std.specs.Prelude.{◌+◌};
    ghost use Rattle.jm_debug.specs.Answering.{DebuggerView};

    ghost Value = { DebuggerView H };

    ghost view = { λ d. record { machine = d.machine; breaks = d.breaks.items; cursor = d.last + 1 } };
}

impl<H: Heap> Debugger<H> {
    /// A session that begins where a machine stands, with no break, at thread 1.
    pub fn new(alloc: Global, machine: Machine<H>) -> Debugger<H>
        ensures { (w : World) → MatchesWorld machine w → IsSession result (session_of w) }
    {
        Debugger {
            alloc,
            machine,
            breaks: Vec::new(alloc),
            last: 0,
        }
    }

    /// The machine.
    pub fn machine(&self) -> &Machine<H>
        ensures { (s : Session) → IsSession self.now s → MatchesWorld result.now s.world }
    {
        &self.machine
    }

    // Sets a break.
    fn set_break(&mut self, place: Place) -> Result<String, DebugFault>
        ensures { (s : Session) → IsSession self.old s
            → Comes (λ t. t.bytes.items) self.new s (with_breaks s place (with_break place s.breaks)) (λ t. t ≡ s) result }
    {
        if !is_place(self.machine.program(), &place) {
            drop(place);
            return Err(DebugFault::NoSuch);
        }
        let answer = match String::from_str(self.alloc, "ok\n") {
            Ok(answer) => answer,
            Err(error) => {
                drop(place);
                return Err(DebugFault::from(error));
            }
        };
        match put_break(&mut self.breaks, place) {
            Ok(()) => Ok(answer),
            Err(error) => {
                drop(answer);
                Err(DebugFault::from(error))
            }
        }
    }

    // Takes a break away.
    fn clear_break(&mut self, place: &Place) -> Result<String, DebugFault>
        ensures { (s : Session) → IsSession self.old s
            → Comes (λ t. t.bytes.items) self.new s (with_breaks s place.now (without_break place.now s.breaks)) (λ t. t ≡ s) result }
    {
        if !is_place(self.machine.program(), place) {
            return Err(DebugFault::NoSuch);
        }
        let answer = String::from_str(self.alloc, "ok\n")?;
        take_break(&mut self.breaks, place);
        Ok(answer)
    }

    // Makes an event. The room for the answer is taken first, so that no answer is lost once the event
    // is made.
    fn make(&mut self, event: Event) -> Result<String, DebugFault>
        ensures collects { OnOk result (Collects H.leaves event self.old.machine self.new.machine) }
        ensures comes { (s : Session) → IsSession self.old s → Comes (λ t. t.bytes.items) self.new s (replies s (after s.world event)) (λ t. t ≡ s) result }
    {
        let mut answer = String::with_capacity(self.alloc, LONGEST_REPLY)?;
        let reply = self.machine.step(event)?;
        answer.push_str(kind_line(reply.kind))?;
        Ok(answer)
    }

    // Makes steps of a thread, as many as are asked for and at least one, in long turns.
    fn step(&mut self, thread: u64, count: u32) -> Result<String, DebugFault>
        ensures { (s : Session) → IsSession self.old s
            → Comes (λ t. t.bytes.items) self.new s (replies s (more (count - 1) (Step thread) (after s.world (Step thread))))
            (RepeatsWithin (count - 1) (Step thread) s) result }
    {
        let mut answer = String::with_capacity(self.alloc, LONGEST_REPLY)?;
        let kind = make_steps(&mut self.machine, thread, count)?;
        answer.push_str(kind_line(kind))?;
        Ok(answer)
    }

    // The line of the break at which a thread stands before an event that is not the first.
    fn line_before(&self, first: bool, thread: u64) -> Result<Option<String>, DebugFault>
        ensures { (s : Session) → IsSession self.now s → MatchResult result
            (λ line. option_map (λ t. t.bytes.items) line ≡ option_map (λ p. ended (break_text thread p)) (break_before s first thread))
            (λ fault. fault ≡ DebugFault.OutOfMemory) }
    {
        if first {
            return Ok(None);
        }
        Ok(break_line(self.alloc, &self.machine, self.breaks.as_slice(), thread)?)
    }

    // Makes the event of the thread whose turn it is.
    fn make_turn(&mut self, thread: u64) -> Result<ReplyKind, DebugFault>
        ensures made { (s : Session) → IsSession self.old s → MatchResult result
            (λ kind. (kind ≡ (after s.world (Step thread)).reply.kind) × IsSession self.new (turned thread s))
            (λ fault. (fault ≡ DebugFault.OutOfMemory) × IsSession self.new s) }
        ensures marked { StaysMarked self.old self.new }
    {
        let reply = self.machine.step(Event::Step(thread))?;
        self.last = thread;
        Ok(reply.kind)
    }

    // Stops at a break, or makes the event of the thread whose turn it is.
    fn make_one(&mut self, first: bool, thread: u64, blocked: usize) -> Result<Moved, DebugFault>
        requires some { 0 < thread }
        requires few { blocked < 2 ^ 32 }
        ensures moves { (s : Session) (most : ℕ) → IsSession self.old s → 0 < most → turn_of s blocked ≡ Turn.Of thread
            → Moves most s first blocked self.new result }
        ensures few { IsFew 1 blocked result }
        ensures marked { StaysMarked self.old self.new }
    {
        match self.line_before(first, thread)? {
            Some(line) => {
                self.last = thread - 1;
                Ok(Moved::AtBreak(line))
            }
            None => {
                let kind = self.make_turn(thread)?;
                Ok(moved_by(1, kind, blocked))
            }
        }
    }

    // Makes events of the only live thread, up to a break, or to one that is not done, or that makes or
    // ends a thread. Want of memory is told where it comes before the first of them.
    fn make_turns(
        &mut self,
        thread: u64,
        most: usize,
        marks: &[CodePlace],
    ) -> Result<Moved, DebugFault>
        requires some { 0 < thread }
        requires left { 0 < most }
        requires marked { IsMarked self.old marks.now }
        ensures moves { (s : Session) → IsSession self.old s → IsAlone s thread → Moves most s false 0 self.new result }
        ensures few { IsFew most 0 result }
        ensures marked { StaysMarked self.old self.new }
    {
        let steps = match self.machine.step_up_to(0, thread, most, marks) {
            StepsUpTo::AtPlace(0) => return self.make_one(false, thread, 0),
            StepsUpTo::AtPlace(made) => {
                self.last = thread;
                return Ok(Moved::On(made, 0));
            }
            StepsUpTo::Ended(steps) => steps,
        };
        match steps.end {
            StepsEnd::Other(reply) => {
                self.last = thread;
                Ok(moved_by(steps.alike + 1, reply.kind, 0))
            }
            _ if steps.alike == 0 => Err(DebugFault::OutOfMemory),
            _ => {
                self.last = thread;
                Ok(Moved::On(steps.alike, 0))
            }
        }
    }

    // Stops at a break, or makes the event of the thread whose turn it is, or several where no other
    // thread is live. Before the first event no break counts.
    fn take_turn(
        &mut self,
        most: usize,
        first: bool,
        thread: u64,
        blocked: usize,
        marks: &[CodePlace],
    ) -> Result<Moved, DebugFault>
        requires some { 0 < thread }
        requires left { 0 < most }
        requires few { blocked < 2 ^ 32 }
        requires marked { IsMarked self.old marks.now }
        ensures moves { (s : Session) → IsSession self.old s → turn_of s blocked ≡ Turn.Of thread → Moves most s first blocked self.new result }
        ensures few { IsFew most blocked result }
        ensures marked { StaysMarked self.old self.new }
    {
        if !first && blocked == 0 && self.machine.live() == 1 {
            return self.make_turns(thread, most, marks);
        }
        self.make_one(first, thread, blocked)
    }

    // The next turn of a `continue` that has so many events left.
    fn turn(
        &mut self,
        most: usize,
        first: bool,
        blocked: usize,
        marks: &[CodePlace],
    ) -> Result<Moved, DebugFault>
        requires left { 0 < most }
        requires few { blocked < 2 ^ 32 }
        requires marked { IsMarked self.old marks.now }
        ensures moves { (s : Session) → IsSession self.old s → Moves most s first blocked self.new result }
        ensures few { IsFew most blocked result }
        ensures marked { StaysMarked self.old self.new }
    {
        match turn_of(&self.machine, self.last, blocked) {
            Turn::Ended => Ok(Moved::Over("ended\n")),
            Turn::Blocked => Ok(Moved::Over("blocked\n")),
            Turn::Of(thread) => self.take_turn(most, first, thread, blocked, marks),
        }
    }

    // Turns up to a break or an end, with at most so many events.
    fn go_on(&mut self, most: u32) -> Result<String, DebugFault>
        ensures { (s : Session) → IsSession self.old s → Comes (λ t. t.bytes.items) self.new s (continue_from most true 0 s) (ContinuesWithin most s) result }
    {
        let marks = marks_of(self.alloc, &self.machine, self.breaks.as_slice())?;
        let all = most as usize;
        let mut made = 0;
        let mut blocked = 0;
        while made < all {
            match self.turn(all - made, made == 0, blocked, marks.as_slice())? {
                Moved::Over(line) => return Ok(String::from_str(self.alloc, line)?),
                Moved::AtBreak(line) => return Ok(line),
                Moved::On(some, count) => {
                    made += some;
                    blocked = count;
                }
            }
        }
        let line = last_line(&self.machine, self.last, blocked);
        Ok(String::from_str(self.alloc, line)?)
    }

    // Does what a command asks.
    fn obey(&mut self, command: Command) -> Result<String, DebugFault>
        ensures collects { OnOk result (CollectsFor H.leaves (Some command) self.old self.new) }
        ensures obeys { (s : Session) → IsSession self.old s → Obeys (λ t. t.bytes.items) self.new s command result }
    {
        match command {
            Command::Break { place } => self.set_break(place),
            Command::Clear { place } => {
                let answer = self.clear_break(&place);
                drop(place);
                answer
            }
            Command::Step { thread, count } => self.step(thread, count),
            Command::Minor => self.make(Event::Minor),
            Command::Full => self.make(Event::Full),
            Command::Continue => self.go_on(MOST_EVENTS),
            Command::Where { thread } => frames(self.alloc, &self.machine, thread),
            Command::Locals { thread, frame } => locals(self.alloc, &self.machine, thread, frame),
            Command::Stack { thread, frame } => stack(self.alloc, &self.machine, thread, frame),
            Command::Statics { class } => {
                let answer = statics(self.alloc, &self.machine, &class);
                drop(class);
                answer
            }
            Command::Object { number } => object(self.alloc, &self.machine, number),
            Command::Heap => heap(self.alloc, &self.machine),
            Command::Monitors => monitors(self.alloc, &self.machine),
        }
    }

    /// The answer to a line, which is handed over without its line feed, as bytes that end in a line
    /// feed. `BadCommand`: exactly where the line is no command, as [`Command::parse`] says;
    /// `NoSuch`: it names a thread, a frame, a class, a method, an instruction or an object that
    /// there is not, or an object that is not reachable; neither changes anything. `OutOfMemory`: a
    /// growth was refused; a `step` or a `continue` keeps the events that it has made, fewer than
    /// all of a step, and any other command has changed nothing. `minor` and `full` make of the heap,
    /// where the machine has not stopped, what the heap says of the collection.
    pub fn command(&mut self, line: &str) -> Result<Vec<u8>, DebugFault>
        ensures collects { OnOk result (CollectsAt H.leaves (utf16_of line.now) self.old self.new) }
        ensures answers { (s : Session) → IsSession self.old s → Answers (λ v. v.items) self.new s (utf16_of line.now) result }
    {
        let command = Command::parse(self.alloc, line)?;
        let answer = self.obey(command)?;
        Ok(answer.into_bytes())
    }
}
