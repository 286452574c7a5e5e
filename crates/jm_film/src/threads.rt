// Threads: what is pending, what is waited for, the frames, and how one has ended.

ghost use Rattle.std.specs.Prelude.{◌≡◌, ◌++◌, OnOk, Some};
ghost use Rattle.std.specs.Option.{option_copied};
ghost use Rattle.jm_world.specs.World.{World, Thread, thread_at};
ghost use Rattle.jm_machine.specs.View.{MatchesWorld};
ghost use Rattle.jm_debug.specs.Session.{ended};
ghost use Rattle.jm_film.specs.Shown.{end_sections, pending_sections, running_sections, thread_sections, threads_sections, waits_sections};

use crate::frames::put_frames;
use crate::section::put;
use crate::waits::write_waits;
use jm_blocked_threads::is_waiting;
use jm_debug::write_end;
use jm_heap::Heap;
use jm_machine::Machine;
use jm_page::Section;
use std::alloc::{AllocError, Global};

// Puts the object that is thrown and not caught yet, if there is one.
fn put_pending(
    alloc: Global,
    view: &mut Vec<Section>,
    thread: u64,
    pending: Option<u64>,
) -> Result<(), AllocError>
    ensures { OnOk result (view.new.items ≡ view.old.items ++ pending_sections thread pending) }
{
    let Some(number) = pending else {
        return Ok(());
    };
    let key = format!(in alloc; "p {thread}")?;
    let text = format!(in alloc; "#{number}\n")?;
    put(view, key, text)
}

// Puts what a thread waits for, if it does.
fn put_waits<H: Heap>(
    alloc: Global,
    view: &mut Vec<Section>,
    machine: &Machine<H>,
    thread: u64,
    waits: bool,
) -> Result<(), AllocError>
    ensures { (w : World) (t : Thread) → MatchesWorld machine.now w → thread_at w thread ≡ Some t
        → OnOk result (view.new.items ≡ view.old.items ++ waits_sections w.program waits thread t.frames) }
{
    if !waits {
        return Ok(());
    }
    let key = format!(in alloc; "b {thread}")?;
    let mut text = String::new(alloc);
    write_waits(&mut text, machine, thread)?;
    put(view, key, text)
}

// Puts the sections of a thread that has not ended.
fn put_running<H: Heap>(
    alloc: Global,
    view: &mut Vec<Section>,
    machine: &Machine<H>,
    thread: u64,
    waits: bool,
) -> Result<(), AllocError>
    ensures { (w : World) (t : Thread) → MatchesWorld machine.now w → thread_at w thread ≡ Some t
        → OnOk result (view.new.items ≡ view.old.items ++ running_sections w.program waits thread t) }
{
    put_pending(alloc, view, thread, machine.pending(thread))?;
    put_waits(alloc, view, machine, thread, waits)?;
    put_frames(alloc, view, machine, thread)?;
    Ok(())
}

// Puts how a thread has ended: by an exception of a class, or by its last return.
fn put_end(
    alloc: Global,
    view: &mut Vec<Section>,
    thread: u64,
    class: Option<&[u16]>,
) -> Result<(), AllocError>
    ensures { OnOk result (view.new.items ≡ view.old.items ++ end_sections thread (option_copied class.entry)) }
{
    let key = format!(in alloc; "e {thread}")?;
    let mut text = String::new(alloc);
    write_end(alloc, &mut text, class)?;
    put(view, key, text)
}

// Puts the sections of a thread.
fn put_thread<H: Heap>(
    alloc: Global,
    view: &mut Vec<Section>,
    machine: &Machine<H>,
    thread: u64,
    waits: bool,
) -> Result<(), AllocError>
    ensures { (w : World) (t : Thread) → MatchesWorld machine.now w → thread_at w thread ≡ Some t
        → OnOk result (view.new.items ≡ view.old.items ++ thread_sections w.program waits thread t t.ending) }
{
    if machine.is_live(thread) {
        put_running(alloc, view, machine, thread, waits)
    } else {
        put_end(alloc, view, thread, machine.ended_by(thread))
    }
}

/// Puts the sections of all threads, of which some were blocked at their last event.
pub fn put_threads<H: Heap>(
    alloc: Global,
    view: &mut Vec<Section>,
    machine: &Machine<H>,
    waiting: &[u64],
) -> Result<(), AllocError>
    ensures { (w : World) → MatchesWorld machine.now w → OnOk result (view.new.items ≡ view.old.items ++ threads_sections w.program waiting.now 1 w.threads) }
{
    for index in 0..machine.threads() {
        let thread = index as u64 + 1;
        put_thread(alloc, view, machine, thread, is_waiting(waiting, thread))?;
    }
    Ok(())
}
