// The code that the items of a body come to (JVMS 4.7.3).

ghost use Rattle.std.specs.Prelude.{◌≡◌, ◌≤◌, IfOk, if◌then◌else◌, None, Some};
ghost use Rattle.jm_bytes.specs.Reading.{GivesAll, TakesAll, each};
ghost use Rattle.jm_program.specs.Flags.{is_abstract};
ghost use Rattle.jm_program.specs.Fits.{method_slots};
ghost use Rattle.jm_jasmin_ops.specs.declared.fault.AsmFault.TheVariants.{OutOfMemory};
ghost use Rattle.jm_jasmin.specs.Items.{instruction_count, label_value, stack_limit, locals_limit};
ghost use Rattle.jm_jasmin.specs.Labels.{part_of};
ghost use Rattle.jm_jasmin.specs.Body.{limit_or_one, unless_fault, empty_range, checked_locals, checked_count, code_with, code_of, tables_of};

use crate::body::Body;
use crate::part::{Part, parts_of, tables_of};
use crate::range::empty_range;
use jm_jasmin_ops::AsmFault;
use jm_program::{AccessFlags, Code, Method};
use std::alloc::{AllocError, Global};

fn parts_in(alloc: Global, body: Body<'_>) -> Result<Vec<Part>, AsmFault>
    ensures { GivesAll (λ v. v.items) OutOfMemory result (each (part_of (label_value body.entry.items.items) (instruction_count body.entry.items.items)) body.entry.items.items) }
{
    let Body {
        items,
        labels,
        count,
        ..
    } = body;
    parts_of(alloc, &labels, count, items)
}

// A limit that is not given is 1.
fn limit_or_one(limit: Option<u16>) -> u16
    ensures { result ≡ limit_or_one limit }
{
    limit.unwrap_or(1)
}

// The locals of a method that is not abstract hold its arguments.
#[tactic(auto, unfolding(crate::specs::Body::checked_locals))]
fn checked_locals(method: &Method, line: usize, max_locals: u16) -> Result<(), AsmFault>
    requires { method_slots method.now ≤ 255 }
    ensures { TakesAll (λ x. x) result (checked_locals method.now line max_locals) }
{
    let slots = u16::from(method.argument_slots().unwrap());
    if method.flags.has(AccessFlags::ABSTRACT) || slots <= max_locals {
        Ok(())
    } else {
        Err(AsmFault::BadCount(line))
    }
}

// A method that is not abstract has an instruction.
#[tactic(auto, unfolding(crate::specs::Body::checked_count))]
fn checked_count(method: &Method, end_line: usize, count: u32) -> Result<(), AsmFault>
    ensures { TakesAll (λ x. x) result (checked_count method.now end_line count) }
{
    if method.flags.has(AccessFlags::ABSTRACT) || 0 < count {
        Ok(())
    } else {
        Err(AsmFault::BadCount(end_line))
    }
}

// No range is empty.
fn checked_ranges(body: &Body<'_>) -> Result<(), AsmFault>
    ensures { TakesAll (λ x. x) result (unless_fault (empty_range (label_value body.now.items.items) (instruction_count body.now.items.items) body.now.items.items)) }
{
    match empty_range(&body.labels, body.count, &body.items) {
        None => Ok(()),
        Some(fault) => Err(fault),
    }
}

fn code_with(
    alloc: Global,
    max_stack: u16,
    max_locals: u16,
    parts: Vec<Part>,
) -> Result<Code, AllocError>
    ensures { IfOk result (λ c. c ≡ code_with max_stack max_locals (tables_of parts.items)) }
{
    let tables = tables_of(alloc, parts)?;
    Ok(Code {
        max_stack,
        max_locals,
        instructions: tables.instructions,
        handlers: tables.handlers,
        lines: tables.lines,
    })
}

/// The code of a method that begins and ends at these lines: none where it is abstract.
#[tactic(auto, unfolding(crate::specs::Body::code_of))]
pub fn code_of(
    alloc: Global,
    method: &Method,
    line: usize,
    end_line: usize,
    body: Body<'_>,
) -> Result<Option<Code>, AsmFault>
    requires { method_slots method.now ≤ 255 }
    ensures { GivesAll (λ c. c) OutOfMemory result (code_of method.now line end_line body.entry.items.items) }
{
    let max_stack = limit_or_one(body.stack);
    let max_locals = limit_or_one(body.locals);
    let count = body.count;
    if let Err(fault) = checked_locals(method, line, max_locals) {
        drop(body);
        return Err(fault);
    }
    if let Err(fault) = checked_ranges(&body) {
        drop(body);
        return Err(fault);
    }
    let parts = parts_in(alloc, body)?;
    checked_count(method, end_line, count)?;
    if method.flags.has(AccessFlags::ABSTRACT) {
        return Ok(None);
    }
    let code = code_with(alloc, max_stack, max_locals, parts)?;
    Ok(Some(code))
}
