//! A program of one's own over the machine: it assembles a text, links it, loads it over a heap, and makes its
//! events one by one. docs/EMBEDDING.md goes through it.
#![tactic(auto)]

ghost use Rattle.std.specs.Prelude.{◌≡◌, [], IfOk};
ghost use Rattle.jm_gen_heap.specs.Residents.{content_of};

use jm_copy::SerialCollector;
use jm_gen_heap::GenHeap;
use jm_jasmin::assemble;
use jm_linker::link;
use jm_machine::Machine;
use jm_world::{Event, ReplyKind};
use std::alloc::{AllocError, Global};
use std::io::Write;

/// A heap of two generations, whose collections one thread makes.
type RunHeap = GenHeap<SerialCollector>;

/// A text in Jasmin's syntax: it prints the sum of 2 and 3.
const TEXT: &str = ".class public Sum
.super java/lang/Object
.method public static main([Ljava/lang/String;)V
    .limit stack 3
    .limit locals 1
    getstatic java/lang/System/out Ljava/io/PrintStream;
    iconst_2
    iconst_3
    iadd
    invokevirtual java/io/PrintStream/println(I)V
    return
.end method
";

/// The limit of the heap, in cells.
const CELLS: u32 = 1000;

/// The most events that are made.
const EVENTS: u64 = 100;

// An empty heap.
fn empty_heap(alloc: Global) -> Result<RunHeap, AllocError>
    ensures { IfOk result (λ heap. content_of heap ≡ record { limit = 1000; next = 0; residents = [] }) }
{
    GenHeap::new(alloc, CELLS, SerialCollector)
}

// The machine before the first event of the program of a text, which holds its main class.
fn machine_of(alloc: Global, text: &str) -> anyhow::Result<Machine<RunHeap>> {
    let mut classes = Vec::new(alloc);
    classes.push(assemble(alloc, text)?)?;
    let linked = link(alloc, classes)?;
    Ok(Machine::load(alloc, linked, empty_heap(alloc)?)?)
}

// Makes events of the first thread until it has ended or the machine has stopped, and answers how many.
fn run(machine: &mut Machine<RunHeap>) -> anyhow::Result<u64> {
    for made in 0..EVENTS {
        let reply = machine.step(Event::Step(1))?;
        if reply.live == 0 || reply.kind == ReplyKind::Stopped {
            return Ok(made + 1);
        }
    }
    Ok(EVENTS)
}

fn main(rt: HostRuntime) -> anyhow::Result<()> {
    let mut machine = machine_of(rt.alloc(), TEXT)?;
    let events = run(&mut machine)?;
    rt.stdout().write_all(machine.output())?;
    println!(rt; "{events} events")?;
    Ok(())
}
