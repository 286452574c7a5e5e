// What is refused of a program, and where.

ghost use Rattle.std.specs.Prelude.{◌≡◌, ◌++◌, OnOk, Option};
ghost use Rattle.jm_world.specs.Loads.{Refusal};
ghost use Rattle.jm_linker.specs.Answers.{Answers};
ghost use Rattle.jm_linker.specs.Findings.{found};

use crate::fault::LinkFault;
use std::alloc::AllocError;

/// Where in a program something stands: classes by number, from 0, as they are given; fields,
/// methods, superinterfaces, instructions and rows of the exception table by number, from 0, as
/// their class or code has them.
#[derive(Clone, Copy)]
pub enum Site {
    /// A class: its name, its members, or that it is above itself.
    Class(usize),
    /// The superclass that a class names.
    Superclass(usize),
    /// A superinterface that a class names.
    Interface {
        class: usize,
        interface: usize,
    },
    /// The first class, which has to declare main.
    Main,
    /// An instruction of a method's code.
    Instruction {
        class: usize,
        method: usize,
        instruction: usize,
    },
    /// A row of a method's exception table.
    Handler {
        class: usize,
        method: usize,
        handler: usize,
    },
}

/// What is refused of a program, and where it stands.
#[derive(Drop)]
pub struct Finding {
    pub site: Site,
    pub fault: LinkFault,
}

/// Notes what is answered of a site, if it is refused. The one error is that memory is refused.
#[tactic(auto, using(crate::proofs::FindingLaws::nothing_noted, crate::proofs::FindingLaws::noted))]
pub fn note<T: Drop>(
    findings: &mut Vec<Finding>,
    site: Site,
    answer: Result<T, LinkFault>,
) -> Result<(), AllocError>
    ensures { (reason : Option Refusal) → Answers answer reason → OnOk result (findings.new.items ≡ findings.old.items ++ found site reason) }
{
    match answer {
        Ok(_) => Ok(()),
        Err(LinkFault::OutOfMemory) => Err(AllocError),
        Err(fault) => {
            findings.push(Finding { site, fault })?;
            Ok(())
        }
    }
}
