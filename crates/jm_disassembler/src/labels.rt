// Where labels stand.

ghost use Rattle.std.specs.Prelude.{◌≡◌, ◌++◌, ◌∷◌, [], OnOk, IfOk, List, ℕ};
ghost use Rattle.std.specs.List.{flat_map};
ghost use Rattle.jm_disassembler.specs.Labels.{instr_targets, handler_places, marked, marks_of, is_marked};

use jm_program::{Code, Handler, Instr, Plain};
use std::alloc::{AllocError, Global};

// Marks a place, where there is a mark for it.
fn mark(marks: &mut [bool], place: u32)
    ensures { marks.new ≡ marked marks.old (place ∷ []) }
{
    let place = place as usize;
    if place < marks.len() {
        marks[place] = true;
    }
}

fn mark_targets(marks: &mut [bool], instruction: &Instr)
    ensures { marks.new ≡ marked marks.old (instr_targets instruction.now) }
{
    match instruction {
        Instr::Plain(Plain::Branch(_, target)) => mark(marks, *target),
        Instr::Plain(Plain::TableSwitch(table)) => {
            let table = table.get();
            mark(marks, table.default);
            let targets = table.targets.as_slice();
            for target in targets {
                mark(marks, *target);
            }
        }
        Instr::Plain(Plain::LookupSwitch(lookup)) => {
            let lookup = lookup.get();
            mark(marks, lookup.default);
            let pairs = lookup.pairs.as_slice();
            for pair in pairs {
                mark(marks, pair.target);
            }
        }
        _ => {}
    }
}

fn mark_instructions(marks: &mut [bool], instructions: &[Instr])
    ensures { marks.new ≡ marked marks.old (flat_map instr_targets instructions.now) }
{
    for instruction in instructions {
        mark_targets(marks, instruction);
    }
}

fn mark_handlers(marks: &mut [bool], handlers: &[Handler])
    ensures { marks.new ≡ marked marks.old (flat_map handler_places handlers.now) }
{
    for handler in handlers {
        mark(marks, handler.start);
        mark(marks, handler.end);
        mark(marks, handler.target);
    }
}

/// One mark for each instruction and one behind the last: where a label stands.
pub fn marks_of(alloc: Global, code: &Code) -> Result<Vec<bool>, AllocError>
    ensures { IfOk result (λ marks. marks.items ≡ marks_of code.now) }
{
    let instructions = code.instructions.as_slice();
    let mut marks = Vec::from_elem(alloc, false, instructions.len() + 1)?;
    mark_instructions(&mut marks, instructions);
    mark_handlers(&mut marks, code.handlers.as_slice());
    Ok(marks)
}

/// Whether a label stands before the instruction of that number.
pub fn is_marked(marks: &[bool], number: usize) -> bool
    ensures { result ≡ is_marked marks.now number }
{
    if number < marks.len() {
        marks[number]
    } else {
        false
    }
}
