// All that is refused of a program.

ghost use Rattle.std.specs.Prelude.{◌≡◌, ◌++◌, [], IfOk, OnOk, map, take};
ghost use Rattle.jm_world.specs.Classes.{class_named};
ghost use Rattle.jm_world.specs.Loads.{catch_refusal, duplicate_class, instruction_refusal, interface_of_kind, is_named_among, when};
ghost use Rattle.jm_linker.specs.Answers.{Answers};
ghost use Rattle.jm_linker.specs.BuiltInClasses.{built_in_classes};
ghost use Rattle.jm_linker.specs.Findings.{code_found, cycle_found, each, findings, found, main_found, members_again, method_found, methods_found, named_again, parents_found};
ghost use Rattle.jm_linker.specs.declared.finding.Site.TheVariants as site;

use crate::classes::{Classes, Names, classes_of_built_ins};
use crate::cycles::check_cycle;
use crate::fault::{LinkFault, duplicate_class};
use crate::finding::{Finding, Site, note};
use crate::main_method::check_main;
use crate::members::Members;
use crate::parents::{check_interface, check_superclass};
use crate::ranks::{are_ranks, is_over_parents, ranks_of};
use crate::references::{link_field, link_handler, link_method, link_new, link_ref};
use jm_program::{Class, ClassParts, Code, Handler, Instr, Method, Name};
use std::alloc::{AllocError, Global};

// That no class before the number has the name, nor a built-in one.
fn check_name<'a>(
    alloc: Global,
    names: &Names<'a>,
    number: usize,
    name: &'a Name,
) -> Result<(), LinkFault>
    ensures { Answers result (when (is_named_among (take number names.now.program.now) name.now) (duplicate_class name.now)) }
{
    if names.stands_before(name, number) || names.is_built_in(name) {
        return Err(duplicate_class(alloc, name));
    }
    Ok(())
}

// The classes whose name another one before them has, or a built-in one.
fn note_names(alloc: Global, names: &Names, findings: &mut Vec<Finding>) -> Result<(), AllocError>
    ensures { OnOk result (findings.new.items ≡ findings.old.items ++ named_again [] 0 names.now.program.now) }
{
    let program = names.program;
    for (number, class) in program.iter().enumerate() {
        let answer = check_name(alloc, names, number, &class.parts().name);
        note(findings, Site::Class(number), answer)?;
    }
    Ok(())
}

// The members of a class, of which the first that stands twice is noted.
#[tactic(auto, using(crate::proofs::FindingLaws::nothing_noted))]
fn note_members<'a>(
    alloc: Global,
    number: usize,
    class: &'a ClassParts,
    findings: &mut Vec<Finding>,
) -> Result<Members<'a>, AllocError>
    ensures noted { OnOk result (findings.new.items ≡ findings.old.items ++ members_again number class.now) }
    ensures class { IfOk result (λ members. members.class.now ≡ class.now) }
{
    match Members::of(alloc, class) {
        Ok(members) => Ok(members),
        Err(fault) => {
            let refused: Result<(), LinkFault> = Err(fault);
            note(findings, Site::Class(number), refused)?;
            match Members::searched(class) {
                Ok(members) => Ok(members),
                Err(_) => Err(AllocError),
            }
        }
    }
}

// The members of each class of the program, with those that stand twice noted.
fn note_all_members<'a>(
    alloc: Global,
    program: &'a [Class],
    findings: &mut Vec<Finding>,
) -> Result<Vec<Members<'a>>, AllocError>
    ensures noted { OnOk result (findings.new.items ≡ findings.old.items ++ each members_again 0 program.now) }
    ensures classes { IfOk result (λ all. map (λ m. m.class.now) all.items ≡ program.now) }
{
    let mut all = Vec::with_capacity(alloc, program.len())?;
    for (number, class) in program.iter().enumerate() {
        all.push(note_members(alloc, number, class.parts(), findings)?)?;
    }
    Ok(all)
}

fn note_interfaces<'a>(
    alloc: Global,
    classes: &Classes<'a>,
    class: usize,
    names: &'a [Name],
    findings: &mut Vec<Finding>,
) -> Result<(), AllocError>
    ensures { OnOk result (findings.new.items ≡ findings.old.items
        ++ each (λ i name. found (site.Interface class i) (interface_of_kind name (class_named classes.now.program.now name))) 0 names.now) }
{
    for (interface, name) in names.iter().enumerate() {
        let answer = check_interface(alloc, classes, name);
        note(findings, Site::Interface { class, interface }, answer)?;
    }
    Ok(())
}

fn note_all_parents<'a>(
    alloc: Global,
    classes: &Classes<'a>,
    findings: &mut Vec<Finding>,
) -> Result<(), AllocError>
    ensures { OnOk result (findings.new.items ≡ findings.old.items ++ each (parents_found classes.now.program.now) 0 classes.now.program.now) }
{
    for (number, class) in classes.program.iter().enumerate() {
        let class = class.parts();
        let answer = check_superclass(alloc, classes, class);
        note(findings, Site::Superclass(number), answer)?;
        let interfaces = class.interfaces.as_slice();
        note_interfaces(alloc, classes, number, interfaces, findings)?;
    }
    Ok(())
}

fn note_cycles<'a>(
    alloc: Global,
    classes: &Classes<'a>,
    findings: &mut Vec<Finding>,
) -> Result<(), AllocError>
    ensures { OnOk result (findings.new.items ≡ findings.old.items ++ each (cycle_found classes.now.program.now) 0 classes.now.program.now) }
{
    let ranks = ranks_of(alloc, classes)?;
    let by_number = ranks.as_slice();
    let are_ranks = are_ranks(classes, by_number);
    for (number, class) in classes.program.iter().enumerate() {
        let class = class.parts();
        if are_ranks && is_over_parents(classes, by_number, class) {
            continue;
        }
        note(
            findings,
            Site::Class(number),
            check_cycle(alloc, classes, class),
        )?;
    }
    Ok(())
}

// What an instruction names is there, and is of the kind that it is used as.
fn check_instruction<'a>(
    alloc: Global,
    classes: &Classes<'a>,
    instruction: &'a Instr,
) -> Result<(), LinkFault>
    ensures { Answers result (instruction_refusal classes.now.program.now instruction.now) }
{
    match instruction {
        Instr::Field(op, field) => {
            link_field(alloc, classes, *op, field.get())?;
            Ok(())
        }
        Instr::Invoke(op, method) => {
            link_method(alloc, classes, *op, method.get())?;
            Ok(())
        }
        Instr::New(name) => {
            link_new(alloc, classes, name.get())?;
            Ok(())
        }
        Instr::Type(_, class) => {
            link_ref(alloc, classes, class.get())?;
            Ok(())
        }
        Instr::Plain(_)
        | Instr::Array(_)
        | Instr::Return(_)
        | Instr::Throw
        | Instr::Monitor(_)
        | Instr::Constant(_) => Ok(()),
    }
}

fn note_instructions<'a>(
    alloc: Global,
    classes: &Classes<'a>,
    class: usize,
    method: usize,
    instructions: &'a [Instr],
    findings: &mut Vec<Finding>,
) -> Result<(), AllocError>
    ensures { OnOk result (findings.new.items ≡ findings.old.items
        ++ each (λ i instruction. found (site.Instruction class method i) (instruction_refusal classes.now.program.now instruction)) 0 instructions.now) }
{
    for (number, instruction) in instructions.iter().enumerate() {
        let site = Site::Instruction {
            class,
            method,
            instruction: number,
        };
        note(
            findings,
            site,
            check_instruction(alloc, classes, instruction),
        )?;
    }
    Ok(())
}

fn note_handlers<'a>(
    alloc: Global,
    classes: &Classes<'a>,
    class: usize,
    method: usize,
    handlers: &'a [Handler],
    findings: &mut Vec<Finding>,
) -> Result<(), AllocError>
    ensures { OnOk result (findings.new.items ≡ findings.old.items
        ++ each (λ h handler. found (site.Handler class method h) (catch_refusal classes.now.program.now handler)) 0 handlers.now) }
{
    for (number, handler) in handlers.iter().enumerate() {
        let site = Site::Handler {
            class,
            method,
            handler: number,
        };
        note(findings, site, link_handler(alloc, classes, handler))?;
    }
    Ok(())
}

fn note_code<'a>(
    alloc: Global,
    classes: &Classes<'a>,
    class: usize,
    method: usize,
    code: &'a Code,
    findings: &mut Vec<Finding>,
) -> Result<(), AllocError>
    ensures { OnOk result (findings.new.items ≡ findings.old.items ++ code_found classes.now.program.now class method code.now) }
{
    let instructions = code.instructions.as_slice();
    let handlers = code.handlers.as_slice();
    note_instructions(alloc, classes, class, method, instructions, findings)?;
    note_handlers(alloc, classes, class, method, handlers, findings)?;
    Ok(())
}

fn note_method<'a>(
    alloc: Global,
    classes: &Classes<'a>,
    class: usize,
    number: usize,
    method: &'a Method,
    findings: &mut Vec<Finding>,
) -> Result<(), AllocError>
    ensures { OnOk result (findings.new.items ≡ findings.old.items ++ method_found classes.now.program.now class number method.now) }
{
    if let Some(code) = &method.code {
        note_code(alloc, classes, class, number, code, findings)?;
    }
    Ok(())
}

fn note_methods<'a>(
    alloc: Global,
    classes: &Classes<'a>,
    class: usize,
    methods: &'a [Method],
    findings: &mut Vec<Finding>,
) -> Result<(), AllocError>
    ensures { OnOk result (findings.new.items ≡ findings.old.items ++ each (method_found classes.now.program.now class) 0 methods.now) }
{
    for (number, method) in methods.iter().enumerate() {
        note_method(alloc, classes, class, number, method, findings)?;
    }
    Ok(())
}

fn note_all_methods<'a>(
    alloc: Global,
    classes: &Classes<'a>,
    findings: &mut Vec<Finding>,
) -> Result<(), AllocError>
    ensures { OnOk result (findings.new.items ≡ findings.old.items ++ each (methods_found classes.now.program.now) 0 classes.now.program.now) }
{
    for (number, class) in classes.program.iter().enumerate() {
        note_methods(
            alloc,
            classes,
            number,
            class.parts().methods.as_slice(),
            findings,
        )?;
    }
    Ok(())
}

// What is refused of classes whose names and members were looked at.
fn note_uses<'a>(
    alloc: Global,
    classes: &Classes<'a>,
    findings: &mut Vec<Finding>,
) -> Result<(), AllocError>
    ensures { OnOk result (findings.new.items ≡ findings.old.items
        ++ each (parents_found classes.now.program.now) 0 classes.now.program.now
        ++ each (cycle_found classes.now.program.now) 0 classes.now.program.now
        ++ main_found classes.now.program.now
        ++ each (methods_found classes.now.program.now) 0 classes.now.program.now) }
{
    note_all_parents(alloc, classes, findings)?;
    note_cycles(alloc, classes, findings)?;
    note(findings, Site::Main, check_main(classes.program))?;
    note_all_methods(alloc, classes, findings)?;
    Ok(())
}

fn findings_beside(
    alloc: Global,
    program: &[Class],
    built_ins: &[ClassParts],
) -> Result<Vec<Finding>, AllocError>
    requires { built_ins.now ≡ built_in_classes }
    ensures { IfOk result (λ all. all.items ≡ findings program.now) }
{
    let mut findings = Vec::new(alloc);
    let names = Names::of(alloc, program, built_ins)?;
    note_names(alloc, &names, &mut findings)?;
    let members = note_all_members(alloc, program, &mut findings)?;
    let Ok(classes) = Classes::with_members(alloc, names, members) else {
        return Err(AllocError);
    };
    note_uses(alloc, &classes, &mut findings)?;
    Ok(findings)
}

/// All that is refused of a program, and where it stands, in the order in which linking looks for it.
/// Of members that stand twice in a class the first is told; each superclass, each superinterface,
/// each instruction and each row of an exception table is looked at by itself (JVMS 4.5, 4.6, 5.3,
/// 5.4). The one error is that memory is refused.
pub fn findings(alloc: Global, program: &[Class]) -> Result<Vec<Finding>, AllocError>
    ensures { IfOk result (λ all. all.items ≡ findings program.now) }
{
    let built_ins = classes_of_built_ins(alloc)?;
    findings_beside(alloc, program, &built_ins)
}
