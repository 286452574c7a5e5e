// The machine.

ghost use Rattle.std.specs.Prelude.{◌≡◌, ℕ, List, MatchResult, OnErr, OnOk, MatchOption, Some, None, take, length, option_map, IfSome, IfOk, IfErr, ◌≤◌, ◌<◌, map};
ghost use Rattle.jm_world.specs.Monitors.{monitor_in};
ghost use Rattle.jm_world.specs.World.{World, live_among, thread_at};
ghost use Rattle.jm_world.specs.Run.{after, run_from, replies_from};
ghost use Rattle.jm_heap.specs.Allocation.{NewLie};
ghost use Rattle.jm_state.specs.Reached.{AreReachable};
ghost use Rattle.jm_interp.specs.PlainRuns.{MakesDone};
ghost use Rattle.jm_interp.specs.ThreadRuns.{IsWithin, Makes};
ghost use Rattle.jm_linked.specs.Links.{name_of_number};
ghost use Rattle.jm_machine.specs.Answered.{EndsForMemory, MayWantMemory};
ghost use Rattle.jm_machine.specs.CodePlaces.{AreFree, name_of_code, top_stands_at};
ghost use Rattle.jm_machine.specs.Collected.{Collects, LeavesAfter};
ghost use Rattle.jm_machine.specs.EachEvent.{MakesEach};
ghost use Rattle.jm_machine.specs.Readers.{model_frame, model_monitor, frame_at, pending_of, IsOfProgram, TellsObject};
ghost use Rattle.jm_machine.specs.ReachedObjects.{TellsReached};
ghost use Rattle.jm_machine.specs.ManySteps.{AreSteps, EndsBy, Wants, done_reply};
ghost use Rattle.jm_machine.specs.UpToPlaces.{AreStepsUpTo, EndsUpTo};
ghost use Rattle.jm_machine.specs.Threads.{class_ended_by, is_live};
ghost use Rattle.jm_machine.specs.View.{MachineView, MatchesWorld, machine_parts};

use crate::class::class_name;
use crate::code_method::{CodeMethod, code_method};
use crate::code_place::{CodePlace, free_steps};
use crate::event::{ending_of, make_event, make_many, make_plain, reply_of};
use crate::fault::{Interrupted, LoadFault, OutOfMemory};
use crate::frame::{WorldFrame, world_frame};
use crate::load::{is_too_small, make_first_state};
use crate::monitor::{WorldMonitor, world_monitors};
use crate::object::WorldObject;
use crate::objects::WorldObjects;
use crate::reached::reached_places;
use crate::statics::WorldStatics;
use crate::steps::{Steps, StepsEnd, StepsUpTo};
use crate::thread::{frame_of, pending_of};
use jm_heap::Heap;
use jm_interp::Run;
use jm_linked::Linked;
use jm_program::Class;
use jm_state::{Ending, State, find_reachable, reachable};
use jm_world::{Event, Reply, ReplyKind, Stop};
use std::alloc::Global;
use std::marker::Model;
use std::mem;

/// A linked program that runs over a heap.
pub struct Machine<H: Heap> {
    alloc: Global,
    linked: Linked,
    state: State<H>,
}

// Written out, so that whoever lets go of one makes a call (docs/DECISIONS.md).
impl<H: Heap + Drop> Drop for Machine<H> {
    fn drop(self) {
        let Machine {
            alloc: _,
            linked: _,
            state: _,
        } = self;
    }
}

impl<H: Heap> Model for Machine<H> {
    ghost use Rattle.jm_state.specs.View.{view_of};
    ghost use Rattle.jm_machine.specs.View.{MachineView, IsMachine};

    ghost Value = { MachineView H };

    ghost view = { λ m. record { linked = m.linked; heap = m.state.heap; content = H.content m.state.heap; state = view_of m.state } };

    ghost invariant = { λ m. IsMachine (record { linked = m.linked; heap = m.state.heap; content = H.content m.state.heap; state = view_of m.state }) };
}

impl<H: Heap + Drop> Machine<H> {
    ghost use Rattle.std.specs.Prelude.{◌≡◌, None};
    ghost use Rattle.jm_machine.specs.Start.{IsEmpty, Loaded, BeginsAgain};

    /// The machine from which a run of a linked program begins, over an empty heap whose next serial is
    /// 0: `System.out` and the empty array that main is given are made, and then of each string literal, in order, the
    /// array of its chars and its String (JVMS 5.1); each other static field is zero or null, main's
    /// frame stands below the initialization of its class (JVMS 5.2), and no class of the program is
    /// begun. `HeapTooSmall`: exactly where the first objects, those of the literals among them, pass
    /// the heap's limit. `OutOfMemory`: a growth was refused, or a literal has 2^32 code units or
    /// more, which no array has. What it took is dropped after a refusal.
    pub fn load(alloc: Global, linked: Linked, heap: H) -> Result<Machine<H>, LoadFault>
        requires empty { IsEmpty (H.content heap) }
        ensures { Loaded result linked.program (H.content heap).limit }
    {
        let limit = heap.limit();
        if is_too_small(&linked, limit) {
            drop(linked);
            drop(heap);
            return Err(LoadFault::HeapTooSmall);
        }
        let Ok(state) = make_first_state(alloc, &linked, heap) else {
            drop(linked);
            return Err(LoadFault::OutOfMemory);
        };
        Ok(Machine {
            alloc,
            linked,
            state,
        })
    }

    /// The program begins again over an empty heap whose next serial is 0, as [`Machine::load`] begins
    /// it: whatever was made by events before is let go, and with it the heap. The program stays
    /// linked. `HeapTooSmall`: exactly where the first objects pass the heap's limit. `OutOfMemory`: a
    /// growth was refused, or a literal has 2^32 code units or more. After a refusal the machine is
    /// what it was, and the heap that was given is dropped.
    pub fn reset(&mut self, heap: H) -> Result<(), LoadFault>
        requires empty { IsEmpty (H.content heap) }
        ensures begins { BeginsAgain result self.old self.new (H.content heap).limit }
        ensures linked { self.new.linked ≡ self.old.linked }
    {
        let limit = heap.limit();
        if is_too_small(&self.linked, limit) {
            drop(heap);
            return Err(LoadFault::HeapTooSmall);
        }
        let Ok(state) = make_first_state(self.alloc, &self.linked, heap) else {
            return Err(LoadFault::OutOfMemory);
        };
        let old = mem::replace(&mut self.state, state);
        drop(old);
        Ok(())
    }
}

impl<H: Heap> Machine<H> {
    /// Makes one event; an object that it makes lies in the nursery of that number, which has no
    /// part in what it is. A collection on request of a world that has not stopped makes of the heap
    /// what the heap says of its kind, with the places that the machine holds as roots; after `Full`
    /// exactly the objects that the world reaches are resident. `OutOfMemory`: the machine is that of
    /// the world before. It never comes where the world has stopped, nor for a step of a thread that has
    /// ended or is none.
    pub fn step_at(&mut self, nursery: usize, event: Event) -> Result<Reply, OutOfMemory>
        ensures next { (w : World) → MatchesWorld self.old w → MatchResult result (λ reply. MatchesWorld self.new (after w event).world × (reply ≡ (after w event).reply)) (λ _. MatchesWorld self.new w) }
        ensures wants { (w : World) → MatchesWorld self.old w → OnErr result (MayWantMemory w event) }
        ensures leaves { (w : World) → MatchesWorld self.old w → OnOk result (LeavesAfter event self.new.content w) }
        ensures collects { OnOk result (Collects H.leaves event self.old self.new) }
        ensures nursery { NewLie (λ p. H.nursery_of p nursery) self.old.content self.new.content }
        ensures linked { self.new.linked ≡ self.old.linked }
    {
        let alloc = self.alloc;
        let kind = make_event(alloc, &self.linked, &mut self.state, nursery, event)?;
        Ok(reply_of(&self.state, kind))
    }

    /// Makes one event, in the first nursery.
    pub fn step(&mut self, event: Event) -> Result<Reply, OutOfMemory>
        ensures next { (w : World) → MatchesWorld self.old w → MatchResult result (λ reply. MatchesWorld self.new (after w event).world × (reply ≡ (after w event).reply)) (λ _. MatchesWorld self.new w) }
        ensures wants { (w : World) → MatchesWorld self.old w → OnErr result (MayWantMemory w event) }
        ensures leaves { (w : World) → MatchesWorld self.old w → OnOk result (LeavesAfter event self.new.content w) }
        ensures collects { OnOk result (Collects H.leaves event self.old self.new) }
        ensures nursery { NewLie (λ p. H.nursery_of p 0) self.old.content self.new.content }
        ensures linked { self.new.linked ≡ self.old.linked }
    {
        self.step_at(0, event)
    }

    /// Makes steps of one thread, one after the other, at most so many; objects that they make are
    /// made in the nursery of that number. They end before that only by a step that answers
    /// otherwise than done, or makes or ends a thread, which is made, or where a growth was refused,
    /// which comes only where the next step may want memory; the machine is where the steps that were
    /// made lead.
    pub fn step_many(&mut self, nursery: usize, thread: u64, most: usize) -> Steps
        ensures steps { (w : World) → MatchesWorld self.old w → AreSteps w thread self.new result }
        ensures wants { (w : World) → MatchesWorld self.old w → Wants w thread result }
        ensures ends { EndsBy most result }
    {
        let reply = reply_of(&self.state, ReplyKind::Done);
        let mut alike = 0;
        while alike < most {
            match self.run_steps(nursery, thread, most - alike) {
                Run::Alike(made) => alike += made,
                Run::Other(made) => {
                    let next = self.done_reply();
                    return Steps::ended(alike + made, reply, StepsEnd::Other(next));
                }
            }
            if alike < most {
                let Ok(next) = self.step_at(nursery, Event::Step(thread)) else {
                    return Steps::ended(alike, reply, StepsEnd::OutOfMemory);
                };
                if next != reply {
                    return Steps::ended(alike, reply, StepsEnd::Other(next));
                }
                alike += 1;
            }
        }
        Steps::ended(alike, reply, StepsEnd::AllMade)
    }

    // What a step answers that is done and led here.
    #[inline]
    fn done_reply(&self) -> Reply
        ensures { (w : World) → MatchesWorld self.now w → result ≡ done_reply w }
    {
        reply_of(&self.state, ReplyKind::Done)
    }

    // Makes steps of one thread, one after the other, while they are done, at most so many, up to one
    // that makes or ends a thread.
    #[inline]
    fn run_steps(&mut self, nursery: usize, thread: u64, most: usize) -> Run
        ensures steps { (w : World) → MatchesWorld self.old w → Makes result (machine_parts self.new) thread w }
        ensures most { IsWithin most result }
    {
        make_many(
            self.alloc,
            &self.linked,
            &mut self.state,
            nursery,
            thread,
            most,
        )
    }

    /// Makes steps of one thread as [`Machine::step_many`] does, but none that would begin where the
    /// thread's top frame stands at one of some places: there they end, also before the first one.
    /// In a method without such a place nothing is compared while instructions go on in it.
    pub fn step_up_to(
        &mut self,
        nursery: usize,
        thread: u64,
        most: usize,
        places: &[CodePlace],
    ) -> StepsUpTo
        ensures steps { (w : World) → MatchesWorld self.old w → AreStepsUpTo self.old.linked places.now w thread self.new result }
        ensures ends { EndsUpTo most result }
        ensures linked { self.new.linked ≡ self.old.linked }
    {
        let reply = reply_of(&self.state, ReplyKind::Done);
        let mut made = 0;
        while made < most {
            let free = self.free_steps(thread, most - made, places);
            if free == 0 {
                return StepsUpTo::AtPlace(made);
            }
            let run = self.run_plain(thread, free);
            made += run;
            if run < free {
                let Ok(answer) = self.step_at(nursery, Event::Step(thread)) else {
                    return StepsUpTo::ended(made, reply, StepsEnd::OutOfMemory);
                };
                if answer != reply {
                    return StepsUpTo::ended(made, reply, StepsEnd::Other(answer));
                }
                made += 1;
            }
        }
        StepsUpTo::ended(made, reply, StepsEnd::AllMade)
    }

    // How many steps of a thread may be made, at most so many, before its top frame is to be compared
    // with some places again.
    #[inline]
    fn free_steps(&self, thread: u64, most: usize, places: &[CodePlace]) -> usize
        requires { 0 < most }
        ensures free { (w : World) → MatchesWorld self.now w → AreFree self.now.linked places.now result (top_stands_at w thread) }
        ensures most { result ≤ most }
    {
        free_steps(&self.state.threads, thread, most, places)
    }

    // Makes steps of one thread, one after the other, while they are instructions that touch one
    // frame alone and go on, at most so many, and answers how many.
    #[inline]
    fn run_plain(&mut self, thread: u64, most: usize) -> usize
        ensures steps { (w : World) → MatchesWorld self.old w → MakesDone (machine_parts self.new) thread result w }
        ensures most { result ≤ most }
        ensures linked { self.new.linked ≡ self.old.linked }
    {
        make_plain(&self.linked, &mut self.state, thread, most)
    }

    /// Makes events, one after the other, as [`Machine::step`] makes each, and answers their replies.
    /// `Interrupted`: a growth was refused, of their list before the first event, or where an event may
    /// want memory; the machine is where the events that were made lead.
    pub fn run(&mut self, events: &[Event]) -> Result<Vec<Reply>, Interrupted>
        ensures run { (w : World) → MatchesWorld self.old w → MatchResult result (λ replies. MatchesWorld self.new (run_from w events.now) × (replies.items ≡ replies_from w events.now)) (λ fault. MatchesWorld self.new (run_from w (take fault.made events.now))) }
        ensures wants { (w : World) → MatchesWorld self.old w → IfErr result (λ fault. EndsForMemory w events.now fault.made) }
        ensures made { IfErr result (λ fault. fault.made ≤ length events.now) }
        ensures each { OnOk result (MakesEach H.leaves (λ p. H.nursery_of p 0) events.now self.old self.new) }
        ensures before { IfErr result (λ fault. (mid : MachineView _) × MakesEach H.leaves (λ p. H.nursery_of p 0) (take fault.made events.now) self.old mid) }
    {
        let Ok(mut replies) = Vec::with_capacity(self.alloc, events.len()) else {
            return Err(Interrupted { made: 0 });
        };
        for (made, event) in events.iter().enumerate() {
            match self.step(*event) {
                Ok(reply) => replies.push_reserved(reply),
                Err(_) => return Err(Interrupted { made }),
            }
        }
        Ok(replies)
    }

    /// The program's classes, in order.
    pub fn program(&self) -> &[Class]
        ensures { (w : World) → MatchesWorld self.now w → result.now ≡ w.program }
    {
        self.linked.classes()
    }

    /// How many methods with code the program has. They are numbered from 0.
    pub fn methods(&self) -> usize
        ensures { result ≡ length self.now.linked.methods }
    {
        self.linked.methods().len()
    }

    /// The method with code of a number.
    pub fn method(&self, number: usize) -> CodeMethod<'_>
        requires { number < length self.now.linked.methods }
        ensures { name_of_number self.now.linked number ≡ name_of_code result }
    {
        code_method(&self.linked, number)
    }

    /// The heap.
    pub fn heap(&self) -> &H
        ensures { H.content result.now ≡ self.now.content }
    {
        &self.state.heap
    }

    /// The bytes that the program has printed.
    pub fn output(&self) -> &[u8]
        ensures { (w : World) → MatchesWorld self.now w → result.now ≡ w.output }
    {
        &self.state.output
    }

    /// Why the machine has stopped, if it has.
    pub fn stop(&self) -> Option<Stop>
        ensures { (w : World) → MatchesWorld self.now w → result ≡ w.stop }
    {
        self.state.stop
    }

    /// How many Java threads were ever made. They are numbered from 1.
    pub fn threads(&self) -> usize
        ensures { (w : World) → MatchesWorld self.now w → result ≡ length w.threads }
    {
        self.state.threads.len()
    }

    /// How many Java threads have not ended. It walks over no thread.
    pub fn live(&self) -> usize
        ensures { (w : World) → MatchesWorld self.now w → result ≡ live_among w.threads }
    {
        self.state.live
    }

    /// Whether there is a thread of a number and it has not ended.
    pub fn is_live(&self, number: u64) -> bool
        ensures { (w : World) → MatchesWorld self.now w → result ≡ is_live w number }
    {
        match ending_of(&self.state.threads, number) {
            Some(Ending::Running) => true,
            Some(Ending::Returned) => false,
            Some(Ending::EndedBy(_)) => false,
            None => false,
        }
    }

    /// The name, in UTF-16 code units, of the class of the exception by which the thread of a
    /// number has ended; None where there is no such thread, or it has not ended so.
    pub fn ended_by(&self, number: u64) -> Option<&[u16]>
        ensures { (w : World) → MatchesWorld self.now w → MatchOption result (class_ended_by (thread_at w number) ≡ None) (λ name. class_ended_by (thread_at w number) ≡ Some name.now) }
    {
        match ending_of(&self.state.threads, number) {
            Some(Ending::EndedBy(class)) => Some(class_name(&self.linked, class)),
            Some(Ending::Running) => None,
            Some(Ending::Returned) => None,
            None => None,
        }
    }

    /// The numbers of the objects that are reachable, rising (JVMS 2.5.3). `OutOfMemory`: a growth
    /// was refused.
    pub fn reachable(&self) -> Result<Vec<u64>, OutOfMemory>
        ensures { (w : World) → MatchesWorld self.now w → IfOk result (λ numbers. AreReachable w numbers.items) }
    {
        match reachable(self.alloc, &self.linked, &self.state) {
            Ok(numbers) => Ok(numbers),
            Err(_) => Err(OutOfMemory),
        }
    }

    /// The frame of the thread of a number that is so many below the top one, which is 0 (JVMS
    /// 2.6); None where there is no such thread or no such frame.
    pub fn frame(&self, number: u64, depth: usize) -> Option<WorldFrame<'_, H>>
        ensures frame { (w : World) → MatchesWorld self.now w → MatchOption result (frame_at (thread_at w number) depth ≡ None) (λ frame. frame_at (thread_at w number) depth ≡ Some (model_frame frame)) }
        ensures method { (w : World) → MatchesWorld self.now w → IfSome result (IsOfProgram w.program) }
    {
        match frame_of(&self.state.threads, number, depth) {
            Some(frame) => Some(world_frame(&self.state.heap, &self.linked, frame)),
            None => None,
        }
    }

    /// The number of the pending exception of the thread of a number (JVMS 2.10); None where there
    /// is no such thread, or nothing is pending.
    pub fn pending(&self, number: u64) -> Option<u64>
        ensures { (w : World) → MatchesWorld self.now w → result ≡ pending_of (thread_at w number) }
    {
        match pending_of(&self.state.threads, number) {
            Some(place) => Some(self.state.heap.serial(place)),
            None => None,
        }
    }

    /// The static fields (JVMS 2.5.4): `System.out`, then those of the program's classes, in order.
    pub fn statics(&self) -> WorldStatics<'_, H>
        ensures { (w : World) → MatchesWorld self.now w → result ≡ w.statics }
    {
        WorldStatics::new(&self.state.heap, &self.linked, &self.state.statics)
    }

    /// The object of a number; None where it is not reachable, also where it is garbage that still
    /// has a place (JVMS 2.5.3). It looks at each reachable object once at most. `OutOfMemory`: a
    /// growth was refused.
    pub fn object(&self, number: u64) -> Result<Option<WorldObject<'_, H>>, OutOfMemory>
        ensures { (w : World) → MatchesWorld self.now w → IfOk result (TellsObject w number) }
    {
        match find_reachable(self.alloc, &self.linked, &self.state, number) {
            Ok(Some(place)) => {
                let object = WorldObject::new(&self.state.heap, &self.linked, place);
                Ok(Some(object))
            }
            Ok(None) => Ok(None),
            Err(_) => Err(OutOfMemory),
        }
    }

    /// The objects that are reachable (JVMS 2.5.3), each with its number, in the order of the
    /// numbers. It looks at each of them once. `OutOfMemory`: a growth was refused.
    pub fn objects(&self) -> Result<WorldObjects<'_, H>, OutOfMemory>
        ensures { (w : World) → MatchesWorld self.now w → IfOk result (TellsReached w) }
    {
        match reached_places(self.alloc, &self.linked, &self.state) {
            Ok(places) => Ok(WorldObjects::new(&self.state.heap, &self.linked, places)),
            Err(_) => Err(OutOfMemory),
        }
    }

    /// The monitors that threads hold (JVMS 2.11.10), in the order of the numbers of their objects.
    /// `OutOfMemory`: a growth was refused.
    pub fn monitors(&self) -> Result<Vec<WorldMonitor>, OutOfMemory>
        ensures { (w : World) → MatchesWorld self.now w → IfOk result (λ monitors. map model_monitor monitors.items ≡ w.monitors) }
    {
        match world_monitors(self.alloc, &self.state.heap, &self.state.monitors) {
            Ok(monitors) => Ok(monitors),
            Err(_) => Err(OutOfMemory),
        }
    }

    /// The monitor of the object of a number, if a thread holds it (JVMS 2.11.10).
    pub fn monitor(&self, number: u64) -> Option<WorldMonitor>
        ensures { (w : World) → MatchesWorld self.now w → option_map model_monitor result ≡ monitor_in w.monitors number }
    {
        match self.state.monitors.get(number) {
            Some(held) => Some(WorldMonitor {
                object: number,
                owner: held.owner,
                count: held.count,
            }),
            None => None,
        }
    }
}
