// Classes above themselves (JVMS 5.3.5).

ghost use Rattle.std.specs.Prelude.{◌≡◌, MatchResult, IsTrue, Some, is_some};
ghost use Rattle.jm_program.specs.declared.class.ClassParts.{ClassParts};
ghost use Rattle.jm_world.specs.Classes.{class_named};
ghost use Rattle.jm_world.specs.Loads.{cycle_refusal, first_of_all};
ghost use Rattle.jm_linker.specs.Answers.{Answers, IsOutOfMemory};
ghost use Rattle.jm_linker.specs.Cycles.{is_above_itself};

use crate::classes::Classes;
use crate::fault::{LinkFault, cycle};
use crate::ranks::{are_ranks, is_over_parents, ranks_of};
use crate::sought::Sought;
use crate::walk::find_above;
use jm_program::ClassParts;
use std::alloc::Global;
use std::slice;

fn is_above_itself<'a>(
    alloc: Global,
    classes: &Classes<'a>,
    class: &'a ClassParts,
) -> Result<bool, LinkFault>
    requires { IsTrue (is_some (class_named classes.now.program.now class.now.name)) }
    ensures { MatchResult result (λ b. b ≡ is_above_itself classes.now.program.now class.now) (λ fault. IsOutOfMemory fault) }
{
    let sought = Sought::Class(&class.name);
    if let Some(name) = &class.superclass {
        if let Some(_) = find_above(alloc, classes, &sought, slice::from_ref(name))? {
            return Ok(true);
        }
    }
    match find_above(alloc, classes, &sought, class.interfaces.as_slice())? {
        Some(_) => Ok(true),
        None => Ok(false),
    }
}

#[tactic(auto, using(crate::proofs::Reasons::memory_says))]
pub fn check_cycle<'a>(
    alloc: Global,
    classes: &Classes<'a>,
    class: &'a ClassParts,
) -> Result<(), LinkFault>
    requires { IsTrue (is_some (class_named classes.now.program.now class.now.name)) }
    ensures { Answers result (cycle_refusal classes.now.program.now class.now) }
{
    if is_above_itself(alloc, classes, class)? {
        return Err(cycle(alloc, &class.name));
    }
    Ok(())
}

/// That no class is above itself. Ranks say so of most classes at once; where they do not, a walk up
/// decides. Gives the ranks.
pub fn check_cycles<'a>(alloc: Global, classes: &Classes<'a>) -> Result<Vec<u32>, LinkFault>
    ensures { Answers result (first_of_all (cycle_refusal classes.now.program.now) classes.now.program.now) }
{
    let ranks = ranks_of(alloc, classes)?;
    let by_number = ranks.as_slice();
    let are_ranks = are_ranks(classes, by_number);
    for class in classes.program {
        let class = class.parts();
        if are_ranks && is_over_parents(classes, by_number, class) {
            continue;
        }
        check_cycle(alloc, classes, class)?;
    }
    Ok(ranks)
}
