// A machine over a heap of any kind.

ghost use Rattle.std.specs.Prelude.{IfOk};
ghost use Rattle.jm_machine.specs.Start.{IsEmpty};
ghost use Rattle.jm_machine.specs.View.{MatchesWorld};
ghost use Rattle.jm_premises.specs.Beginning.{beginning};

use anyhow::bail;
use jm_heap::Heap;
use jm_jasmin::assemble;
use jm_linked::Linked;
use jm_linker::link;
use jm_machine::{LoadFault, Machine, OutOfMemory};
use jm_world::{Event, Reply, ReplyKind};
use std::alloc::{AllocError, Global};

/// The limit of each heap, in cells.
pub const CELLS: u32 = 1000;

// The most events of a run.
const EVENTS: u64 = 1000;

// The main class, which starts two threads.
const MAIN: &str = ".class Main
.super java/lang/Object
.method static main([Ljava/lang/String;)V
    .limit stack 2
    new Printer
    dup
    invokespecial java/lang/Thread/<init>()V
    invokevirtual java/lang/Thread/start()V
    new Printer
    dup
    invokespecial java/lang/Thread/<init>()V
    invokevirtual java/lang/Thread/start()V
    return
.end method
";

// A thread that prints 1.
const PRINTER: &str = ".class Printer
.super java/lang/Thread
.method run()V
    .limit stack 2
    getstatic java/lang/System/out Ljava/io/PrintStream;
    iconst_1
    invokevirtual java/io/PrintStream/println(I)V
    return
.end method
";

// The two classes as a linked program.
fn linked_program(alloc: Global) -> anyhow::Result<Linked> {
    let mut classes = Vec::new(alloc);
    classes.push(assemble(alloc, MAIN)?)?;
    classes.push(assemble(alloc, PRINTER)?)?;
    Ok(link(alloc, classes)?)
}

// The machine of a linked program before its first event.
fn loaded<H: Heap + Drop>(alloc: Global, linked: Linked, heap: H) -> Result<Machine<H>, LoadFault>
    requires { IsEmpty (H.content heap) }
    ensures { IfOk result (λ machine. MatchesWorld machine (beginning machine)) }
{
    match Machine::load(alloc, linked, heap) {
        Ok(machine) => Ok(machine),
        Err(fault) => Err(fault),
    }
}

/// The machine of two threads that print 1 each, before its first event, over an empty heap.
pub fn machine_over<H: Heap + Drop>(alloc: Global, heap: H) -> anyhow::Result<Machine<H>>
    requires { IsEmpty (H.content heap) }
    ensures { IfOk result (λ machine. MatchesWorld machine (beginning machine)) }
{
    let linked = match linked_program(alloc) {
        Ok(linked) => linked,
        Err(fault) => {
            drop(heap);
            return Err(fault);
        }
    };
    match loaded(alloc, linked, heap) {
        Ok(machine) => Ok(machine),
        Err(fault) => bail!("{fault}"),
    }
}

/// How many objects lie in the heap of a machine before its first event.
pub fn residents<H: Heap>(machine: &Machine<H>) -> Result<usize, AllocError>
    requires { MatchesWorld machine.now (beginning machine.now) }
{
    let numbers = machine.heap().resident()?;
    Ok(numbers.len())
}

// The thread of the next event, round the threads that the last reply tells of; None where that reply ends a run.
fn next_thread(thread: u64, reply: Reply) -> Option<u64> {
    if reply.kind == ReplyKind::Stopped || reply.live == 0 {
        return None;
    }
    if thread < reply.made {
        Some(thread.saturating_add(1))
    } else {
        Some(1)
    }
}

/// Makes events round the threads until none is live or the machine has stopped, and answers how many.
pub fn run<H: Heap>(machine: &mut Machine<H>) -> Result<u64, OutOfMemory> {
    let mut thread = 1;
    for made in 0..EVENTS {
        let reply = machine.step(Event::Step(thread))?;
        match next_thread(thread, reply) {
            Some(next) => thread = next,
            None => return Ok(made + 1),
        }
    }
    Ok(EVENTS)
}
