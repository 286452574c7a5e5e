// The items of a body, one accepted after the other (Jasmin User Guide, "Method Definitions").

ghost use Rattle.std.specs.Prelude.{◌≡◌, ◌++◌, ◌∷◌, [], ◌<◌, ◌≤◌, ◌-◌, ◌^◌, ◌||◌, not, nat_le, ℕ, List, None, is_some, IfOk};
ghost use Rattle.jm_program.specs.Flags.{is_abstract};
ghost use Rattle.std.specs.HashMap.{get};
ghost use Rattle.jm_bytes.specs.Reading.{GivesAll, TakesAll};
ghost use Rattle.jm_program.specs.Fits.{method_slots};
ghost use Rattle.jm_program.specs.Names.{same_text};
ghost use Rattle.jm_jasmin_ops.specs.declared.fault.AsmFault.TheVariants.{OutOfMemory};
ghost use Rattle.jm_jasmin.specs.declared.item.Item.TheVariants as item;
ghost use Rattle.jm_jasmin.specs.Lines.{Reads};
ghost use Rattle.jm_jasmin.specs.Items.{instruction_here, instruction_count, value_here, label_value, stack_here, stack_limit, locals_here, locals_limit, with_item, next_item, items_of};

use crate::item::{Item, item_at};
use crate::lines::Lines;
use jm_jasmin_ops::{AsmFault, LabelledInstr};
use jm_program::{AccessFlags, Method, Name};
use std::alloc::{AllocError, Global};
use std::collections::HashMap;

/// The items of a body, and what they come to.
#[derive(Drop)]
pub struct Body<'a> {
    pub items: Vec<Item<'a>>,
    /// The values of the labels.
    pub labels: HashMap<Name, u32>,
    pub stack: Option<u16>,
    pub locals: Option<u16>,
    /// How many instructions there are.
    pub count: u32,
    ghost labelled: { (name : List ℕ) → get same_text labels name ≡ label_value items.items name },
    ghost stack_given: { stack ≡ stack_limit items.items },
    ghost locals_given: { locals ≡ locals_limit items.items },
    ghost counted: { count ≡ instruction_count items.items },
}

impl<'a> Body<'a> {
    #[tactic(auto, unfolding(crate::specs::Items::instruction_count, crate::specs::Items::label_value, crate::specs::Items::stack_limit, crate::specs::Items::locals_limit))]
    fn new(alloc: Global) -> Body<'a>
        ensures { result.items.items ≡ [] }
    {
        Body {
            items: Vec::new(alloc),
            labels: HashMap::new(alloc),
            stack: None,
            locals: None,
            count: 0,
        }
    }
}

// ---- one item more

// An item that is no limit, no label and no instruction.
#[tactic(auto, using(crate::proofs::ItemLaws::item_laws))]
fn with_other<'a>(body: Body<'a>, other: Item<'a>) -> Result<Body<'a>, AllocError>
    requires value { (name : List ℕ) → value_here name other ≡ None }
    requires stack { stack_here other ≡ None }
    requires locals { locals_here other ≡ None }
    requires instruction { instruction_here other ≡ 0 }
    ensures { IfOk result (λ b. b.items.items ≡ body.entry.items.items ++ other.entry ∷ []) }
{
    let Body {
        mut items,
        labels,
        stack,
        locals,
        count,
    } = body;
    if let Err(refused) = items.push(other) {
        drop(refused);
        drop(items);
        drop(labels);
        return Err(AllocError);
    }
    Ok(Body {
        items,
        labels,
        stack,
        locals,
        count,
    })
}

#[tactic(auto, using(crate::proofs::ItemLaws::item_laws))]
fn with_stack(body: Body<'_>, limit: u16) -> Result<Body<'_>, AllocError>
    ensures { IfOk result (λ b. b.items.items ≡ body.entry.items.items ++ item.StackLimit limit ∷ []) }
{
    let mut items = body.items;
    items.push(Item::StackLimit(limit))?;
    Ok(Body {
        items,
        labels: body.labels,
        stack: Some(limit),
        locals: body.locals,
        count: body.count,
    })
}

#[tactic(auto, using(crate::proofs::ItemLaws::item_laws))]
fn with_locals(body: Body<'_>, limit: u16) -> Result<Body<'_>, AllocError>
    ensures { IfOk result (λ b. b.items.items ≡ body.entry.items.items ++ item.LocalsLimit limit ∷ []) }
{
    let mut items = body.items;
    items.push(Item::LocalsLimit(limit))?;
    Ok(Body {
        items,
        labels: body.labels,
        stack: body.stack,
        locals: Some(limit),
        count: body.count,
    })
}

// A name of the same code units.
fn copy_of(alloc: Global, name: &Name) -> Result<Name, AllocError>
    ensures { IfOk result (λ copy. copy ≡ name.now) }
{
    let units = Vec::from_slice(alloc, name.units())?;
    Ok(Name::new(units))
}

#[tactic(auto, using(crate::proofs::ItemLaws::item_laws))]
fn with_label(alloc: Global, body: Body<'_>, name: Name, value: u32) -> Result<Body<'_>, AllocError>
    ensures { IfOk result (λ b. b.items.items ≡ body.entry.items.items ++ item.Label name value ∷ []) }
{
    let mut labels = body.labels;
    let copy = copy_of(alloc, &name)?;
    labels.insert(copy, value)?;
    let mut items = body.items;
    items.push(Item::Label(name, value))?;
    Ok(Body {
        items,
        labels,
        stack: body.stack,
        locals: body.locals,
        count: body.count,
    })
}

#[tactic(auto, using(crate::proofs::ItemLaws::item_laws))]
fn with_instruction<'a>(
    body: Body<'a>,
    instruction: LabelledInstr<'a>,
) -> Result<Body<'a>, AllocError>
    requires { instruction_count body.items.items < 2 ^ 32 - 1 }
    ensures { IfOk result (λ b. b.items.items ≡ body.entry.items.items ++ item.Instruction instruction.entry ∷ []) }
{
    let Body {
        mut items,
        labels,
        stack,
        locals,
        count,
    } = body;
    if let Err(refused) = items.push(Item::Instruction(instruction)) {
        drop(refused);
        drop(items);
        drop(labels);
        return Err(AllocError);
    }
    Ok(Body {
        items,
        labels,
        stack,
        locals,
        count: count + 1,
    })
}

// ---- which items may follow

// Whether so many locals do not hold the arguments of a method that has code.
fn is_too_small(method: &Method, limit: u16) -> bool
    requires { method_slots method.now ≤ 255 }
    ensures { result ≡ not (is_abstract method.now.flags || nat_le (method_slots method.now) limit) }
{
    let slots = u16::from(method.argument_slots().unwrap());
    !(method.flags.has(AccessFlags::ABSTRACT) || slots <= limit)
}

#[tactic(auto, unfolding(crate::specs::Items::with_item))]
fn accept_stack<'a>(
    method: &Method,
    line: usize,
    body: Body<'a>,
    limit: u16,
) -> Result<Body<'a>, AsmFault>
    ensures { GivesAll (λ b. b.items.items) OutOfMemory result (with_item method.now line body.entry.items.items (item.StackLimit limit)) }
{
    if body.stack.is_some() {
        drop(body);
        return Err(AsmFault::Syntax(line));
    }
    let body = with_stack(body, limit)?;
    Ok(body)
}

#[tactic(auto, unfolding(crate::specs::Items::with_item, crate::specs::Items::locals_accepted))]
fn accept_locals<'a>(
    method: &Method,
    line: usize,
    body: Body<'a>,
    limit: u16,
) -> Result<Body<'a>, AsmFault>
    requires { method_slots method.now ≤ 255 }
    ensures { GivesAll (λ b. b.items.items) OutOfMemory result (with_item method.now line body.entry.items.items (item.LocalsLimit limit)) }
{
    if body.locals.is_some() {
        drop(body);
        return Err(AsmFault::Syntax(line));
    }
    if is_too_small(method, limit) {
        drop(body);
        return Err(AsmFault::BadCount(line));
    }
    let body = with_locals(body, limit)?;
    Ok(body)
}

fn has_label(body: &Body<'_>, name: &Name) -> bool
    ensures { result ≡ is_some (label_value body.now.items.items name.now) }
{
    body.labels.get(name).is_some()
}

#[tactic(auto, unfolding(crate::specs::Items::with_item))]
fn accept_label<'a>(
    alloc: Global,
    method: &Method,
    line: usize,
    body: Body<'a>,
    name: Name,
    value: u32,
) -> Result<Body<'a>, AsmFault>
    ensures { GivesAll (λ b. b.items.items) OutOfMemory result (with_item method.now line body.entry.items.items (item.Label name value)) }
{
    if has_label(&body, &name) {
        drop(body);
        drop(name);
        return Err(AsmFault::DuplicateLabel(line));
    }
    let body = with_label(alloc, body, name, value)?;
    Ok(body)
}

#[tactic(auto, unfolding(crate::specs::Items::with_item, crate::specs::Items::instruction_accepted))]
fn accept_instruction<'a>(
    method: &Method,
    line: usize,
    body: Body<'a>,
    instruction: LabelledInstr<'a>,
) -> Result<Body<'a>, AsmFault>
    ensures { GivesAll (λ b. b.items.items) OutOfMemory result (with_item method.now line body.entry.items.items (item.Instruction instruction.entry)) }
{
    if method.flags.has(AccessFlags::ABSTRACT) {
        drop(body);
        drop(instruction);
        return Err(AsmFault::Syntax(line));
    }
    if body.count == u32::MAX {
        drop(body);
        drop(instruction);
        return Err(AsmFault::BadCount(line));
    }
    let body = with_instruction(body, instruction)?;
    Ok(body)
}

#[tactic(auto, unfolding(crate::specs::Items::with_item))]
fn accept<'a>(
    alloc: Global,
    method: &Method,
    line: usize,
    body: Body<'a>,
    item: Item<'a>,
) -> Result<Body<'a>, AsmFault>
    requires { method_slots method.now ≤ 255 }
    ensures { GivesAll (λ b. b.items.items) OutOfMemory result (with_item method.now line body.entry.items.items item.entry) }
{
    match item {
        Item::StackLimit(limit) => accept_stack(method, line, body, limit),
        Item::LocalsLimit(limit) => accept_locals(method, line, body, limit),
        Item::Label(name, value) => accept_label(alloc, method, line, body, name, value),
        Item::Instruction(instruction) => accept_instruction(method, line, body, instruction),
        Item::Line(entry) => {
            let body = with_other(body, Item::Line(entry))?;
            Ok(body)
        }
        Item::Catch(row) => {
            let body = with_other(body, Item::Catch(row))?;
            Ok(body)
        }
        Item::Dropped => {
            let body = with_other(body, Item::Dropped)?;
            Ok(body)
        }
    }
}

#[tactic(auto, unfolding(crate::specs::Items::next_item))]
fn next_item<'a>(
    alloc: Global,
    method: &Method,
    body: Body<'a>,
    lines: &mut Lines<'_, 'a>,
) -> Result<Body<'a>, AsmFault>
    requires { method_slots method.now ≤ 255 }
    ensures { Reads (λ b. b.items.items) result lines.new (next_item method.now body.entry.items.items lines.old) }
{
    let line = lines.line_number();
    let number = body.count;
    let item = item_at(alloc, number, lines)?;
    accept(alloc, method, line, body, item)
}

/// The items of a method's body, up to the line that begins with `.end`.
#[tactic(auto, unfolding(crate::specs::Items::items_of), using(crate::proofs::Steps::body_steps))]
pub fn items_of<'a>(
    alloc: Global,
    method: &Method,
    lines: &mut Lines<'_, 'a>,
) -> Result<Body<'a>, AsmFault>
    requires { method_slots method.now ≤ 255 }
    ensures { Reads (λ b. b.items.items) result lines.new (items_of method.now lines.old) }
{
    let count = lines.len();
    let mut body = Body::new(alloc);
    for _ in 0..count {
        if lines.begins(".end") {
            return Ok(body);
        }
        body = next_item(alloc, method, body, lines)?;
    }
    Ok(body)
}
