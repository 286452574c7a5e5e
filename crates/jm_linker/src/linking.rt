// From classes to a linked program.

ghost use Rattle.std.specs.Prelude.{◌≡◌, [], None, IfOk, MatchResult, map};
ghost use Rattle.std.specs.List.{AllByRecursion};
ghost use Rattle.jm_world.specs.Loading.{literal_texts};
ghost use Rattle.jm_world.specs.Loads.{refusal, duplicates, duplicate_members, parents_refusal, first_of_all};
ghost use Rattle.jm_builtins.specs.List.{the_builtins};
ghost use Rattle.jm_linked.specs.Links.{coded_from, place_of};
ghost use Rattle.jm_linked.specs.Tables.{AreTables};
ghost use Rattle.jm_linker.specs.Answers.{Answers, IsOutOfMemory, SaysWhy};
ghost use Rattle.jm_linker.specs.BuiltInClasses.{built_in_classes};
ghost use Rattle.jm_linker.specs.LinkedMethods.{LinksAlone};
ghost use Rattle.jm_linker.specs.Linking.{after_members};

use crate::classes::{Classes, Names, built_ins_of, classes_of_built_ins};
use crate::code::link_classes;
use crate::cycles::check_cycles;
use crate::duplicates::no_duplicate_classes;
use crate::fault::LinkFault;
use crate::main_method::{check_main, main_among_coded};
use crate::parents::check_parents;
use crate::tables::tables_of;
use jm_builtins::BuiltIn;
use jm_linked::{Linked, LinkedMethod, Tables};
use jm_program::{Class, ClassParts, Sequence, Shared};
use std::alloc::Global;

fn check_all_parents<'a>(alloc: Global, classes: &Classes<'a>) -> Result<(), LinkFault>
    ensures { Answers result (first_of_all (parents_refusal classes.now.program.now) classes.now.program.now) }
{
    for class in classes.program {
        check_parents(alloc, classes, class.parts())?;
    }
    Ok(())
}

// What is made of a program's classes.
#[derive(Drop)]
struct LinkedParts {
    methods: Vec<LinkedMethod>,
    literals: Vec<Shared<Sequence<u16>>>,
    tables: Tables,
}

// What is made of classes whose names and members are known.
#[derive(Drop)]
struct MethodsAndTables {
    methods: Vec<LinkedMethod>,
    tables: Tables,
}

// The methods with code and the tables of a program whose members are known, or the first reason why it
// does not load, in the order in which the reasons are looked for.
#[tactic(auto, using(crate::proofs::Reasons::first_says))]
fn link_members<'a>(alloc: Global, classes: &Classes<'a>) -> Result<MethodsAndTables, LinkFault>
    requires classes { duplicates [] classes.now.program.now ≡ None }
    requires members { first_of_all duplicate_members classes.now.program.now ≡ None }
    ensures refusal { Answers result (after_members classes.now.program.now) }
    ensures places { IfOk result (λ made. map place_of made.methods.items ≡ coded_from 0 classes.now.program.now) }
    ensures linked { IfOk result (λ made. AllByRecursion (LinksAlone classes.now.program.now) made.methods.items) }
    ensures tables { IfOk result (λ made. AreTables classes.now.program.now made.tables) }
{
    check_all_parents(alloc, classes)?;
    let ranks = check_cycles(alloc, classes)?;
    check_main(classes.program)?;
    let methods = link_classes(alloc, classes)?;
    match tables_of(alloc, classes, &ranks) {
        Ok(tables) => Ok(MethodsAndTables { methods, tables }),
        Err(_) => {
            drop(methods);
            Err(LinkFault::OutOfMemory)
        }
    }
}

// The methods with code, the literals and the tables of a program that loads, or the first reason why
// it does not, in the order in which the reasons are looked for.
#[tactic(auto, using(crate::proofs::Reasons::first_says), unfolding(jm_world::specs::Loads::refusal))]
fn link_methods(
    alloc: Global,
    program: &[Class],
    built_ins: &[ClassParts],
) -> Result<LinkedParts, LinkFault>
    requires { built_ins.now ≡ built_in_classes }
    ensures refusal { Answers result (refusal program.now) }
    ensures places { IfOk result (λ parts. map place_of parts.methods.items ≡ coded_from 0 program.now) }
    ensures linked { IfOk result (λ parts. AllByRecursion (LinksAlone program.now) parts.methods.items) }
    ensures literals { IfOk result (λ parts. parts.literals.items ≡ literal_texts program.now) }
    ensures tables { IfOk result (λ parts. AreTables program.now parts.tables) }
{
    let names = Names::of(alloc, program, built_ins)?;
    no_duplicate_classes(alloc, &names)?;
    let classes = Classes::of(alloc, names)?;
    match link_members(alloc, &classes) {
        Ok(made) => Ok(LinkedParts {
            methods: made.methods,
            literals: classes.into_literals(),
            tables: made.tables,
        }),
        Err(fault) => {
            drop(classes);
            Err(fault)
        }
    }
}

// The linked program of classes that load, of all built-in ones and of what is made of them.
fn with_main(
    classes: Vec<Class>,
    built_ins: Sequence<BuiltIn>,
    parts: LinkedParts,
) -> Result<Linked, LinkFault>
    requires built_in { built_ins ≡ the_builtins }
    requires loads { refusal classes.items ≡ None }
    requires places { map place_of parts.methods.items ≡ coded_from 0 classes.items }
    requires linked { AllByRecursion (LinksAlone classes.items) parts.methods.items }
    requires literals { parts.literals.items ≡ literal_texts classes.items }
    requires tables { AreTables classes.items parts.tables }
    ensures { MatchResult result (λ l. l.program ≡ classes.items) (λ fault. IsOutOfMemory fault) }
{
    match main_among_coded(&classes) {
        Ok(main) => Ok(Linked::new(
            Sequence::new(classes),
            built_ins,
            Sequence::new(parts.methods),
            Sequence::new(parts.literals),
            parts.tables,
            main,
        )),
        Err(fault) => {
            drop(classes);
            drop(built_ins);
            drop(parts);
            Err(fault)
        }
    }
}

// The linked program of classes that load, of the built-in ones and of what is made of them.
fn linked_of(
    alloc: Global,
    classes: Vec<Class>,
    built_ins: Vec<ClassParts>,
    parts: LinkedParts,
) -> Result<Linked, LinkFault>
    requires built_in { built_ins.items ≡ built_in_classes }
    requires loads { refusal classes.items ≡ None }
    requires places { map place_of parts.methods.items ≡ coded_from 0 classes.items }
    requires linked { AllByRecursion (LinksAlone classes.items) parts.methods.items }
    requires literals { parts.literals.items ≡ literal_texts classes.items }
    requires tables { AreTables classes.items parts.tables }
    ensures { MatchResult result (λ l. l.program ≡ classes.items) (λ fault. IsOutOfMemory fault) }
{
    match built_ins_of(alloc, built_ins) {
        Ok(built_ins) => with_main(classes, built_ins, parts),
        Err(error) => {
            drop(classes);
            drop(parts);
            Err(LinkFault::from(error))
        }
    }
}

// The linked program of the classes beside the built-in ones.
fn link_beside(
    alloc: Global,
    classes: Vec<Class>,
    built_ins: Vec<ClassParts>,
) -> Result<Linked, LinkFault>
    requires { built_ins.items ≡ built_in_classes }
    ensures { MatchResult result (λ l. (refusal classes.items ≡ None) × (l.program ≡ classes.items)) (λ fault. SaysWhy fault (refusal classes.items)) }
{
    match link_methods(alloc, &classes, &built_ins) {
        Ok(parts) => linked_of(alloc, classes, built_ins, parts),
        Err(fault) => {
            drop(classes);
            drop(built_ins);
            Err(fault)
        }
    }
}

/// The linked program of the classes, of which the first is the main class.
///
/// Ok where the classes load. The faults, in the order in which they are looked for: two classes of
/// one name; two members of one name and type; superclasses and interfaces that are not there or of
/// the wrong kind; a class above itself; no main; and what the instructions and exception tables name
/// (JVMS 5.3, 5.4).
pub fn link(alloc: Global, classes: Vec<Class>) -> Result<Linked, LinkFault>
    ensures { MatchResult result (λ l. (refusal classes.items ≡ None) × (l.program ≡ classes.items)) (λ fault. SaysWhy fault (refusal classes.items)) }
{
    match classes_of_built_ins(alloc) {
        Ok(built_ins) => link_beside(alloc, classes, built_ins),
        Err(error) => {
            drop(classes);
            Err(LinkFault::from(error))
        }
    }
}
