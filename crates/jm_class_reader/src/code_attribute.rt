// The Code attribute (JVMS 4.7.3) and the LineNumberTable attributes in it (JVMS 4.7.12).

ghost use Rattle.std.specs.Prelude.{◌≡◌, ◌≤◌, length, map, IfOk};
ghost use Rattle.jm_bytes.specs.Reading.{Gives, GivesAll, Takes};
ghost use Rattle.jm_bytes.specs.Format.{within};
ghost use Rattle.jm_class_format.specs.declared.instruction.PlacedInstr.{PlacedInstr};
ghost use Rattle.jm_class_format.specs.declared.read_fault.ReadFault.TheVariants.{OutOfMemory, BadAttribute};
ghost use Rattle.jm_class_format.specs.NamedCode.{file_code};
ghost use Rattle.jm_class_format.specs.CodeAttribute.{whole_info, catch_type, handler_places, handler, handlers, line_number, line_numbers, code_attribute_info, code_attribute, code_attributes, limits, code_length, code_body};

use crate::attribute::{attribute_name, info};
use crate::named_code::{class_name_at, instructions_of};
use crate::places::Places;
use crate::symbols::Symbols;
use jm_bytes::Reader;
use jm_class_format::{PlacedInstr, ReadFault};
use jm_opcodes::{Starts, decode_placed};
use jm_pool::Pool;
use jm_program::{Code, Handler, LineNumber, Name, Sequence, is_text};
use std::alloc::Global;

// ---- the exception table

// The class that is caught, or any for 0.
#[tactic(auto, unfolding(jm_class_format::specs::CodeAttribute::catch_type))]
fn catch_type(
    alloc: Global,
    symbols: &mut Symbols<'_>,
    index: u16,
) -> Result<Option<Name>, ReadFault>
    ensures given { GivesAll (λ name. name) OutOfMemory result (catch_type symbols.old index) }
    ensures same { symbols.new ≡ symbols.old }
{
    if index == 0 {
        return Ok(None);
    }
    let name = class_name_at(alloc, symbols, index)?;
    Ok(Some(name))
}

// Where a handler's range starts and ends, and where the handler is; the range is not empty.
#[tactic(auto, unfolding(jm_class_format::specs::CodeAttribute::handler_places))]
fn handler_places(places: &Places, reader: &mut Reader<'_>) -> Result<(u32, u32, u32), ReadFault>
    ensures { Takes result reader.new ((handler_places places.now).read reader.old) }
{
    let Ok(start_pc) = reader.u2() else {
        return Err(ReadFault::BadAttribute);
    };
    let Ok(end_pc) = reader.u2() else {
        return Err(ReadFault::BadAttribute);
    };
    let Ok(handler_pc) = reader.u2() else {
        return Err(ReadFault::BadAttribute);
    };
    let start = places.number_at(start_pc)?;
    let end = places.end_at(end_pc)?;
    let target = places.number_at(handler_pc)?;
    if end <= start {
        return Err(ReadFault::BadAttribute);
    }
    Ok((start, end, target))
}

#[tactic(auto, unfolding(jm_class_format::specs::CodeAttribute::handler))]
fn handler(
    alloc: Global,
    symbols: &mut Symbols<'_>,
    places: &Places,
    reader: &mut Reader<'_>,
) -> Result<Handler, ReadFault>
    ensures given { Gives (λ handler. handler) OutOfMemory result reader.new ((handler symbols.old places.now).read reader.old) }
    ensures same { symbols.new ≡ symbols.old }
{
    let (start, end, target) = handler_places(places, reader)?;
    let Ok(index) = reader.u2() else {
        return Err(ReadFault::BadAttribute);
    };
    let catch_type = catch_type(alloc, symbols, index)?;
    Ok(Handler {
        start,
        end,
        target,
        catch_type,
    })
}

// The exception table, its count first.
#[tactic(auto, unfolding(jm_class_format::specs::CodeAttribute::handlers), using(jm_bytes::proofs::Loops::many_steps))]
fn handlers(
    alloc: Global,
    symbols: &mut Symbols<'_>,
    places: &Places,
    reader: &mut Reader<'_>,
) -> Result<Vec<Handler>, ReadFault>
    ensures given { Gives (λ v. v.items) OutOfMemory result reader.new ((handlers symbols.old places.now).read reader.old) }
    ensures same { symbols.new ≡ symbols.old }
{
    let Ok(count) = reader.u2() else {
        return Err(ReadFault::BadAttribute);
    };
    let mut handlers = Vec::new(alloc);
    for _ in 0..count {
        let handler = handler(alloc, symbols, places, reader)?;
        handlers.push(handler)?;
    }
    Ok(handlers)
}

// ---- line numbers

#[tactic(auto, unfolding(jm_class_format::specs::CodeAttribute::line_number))]
fn line_number(places: &Places, reader: &mut Reader<'_>) -> Result<LineNumber, ReadFault>
    ensures { Takes result reader.new ((line_number places.now).read reader.old) }
{
    let Ok(start_pc) = reader.u2() else {
        return Err(ReadFault::BadAttribute);
    };
    let start = places.number_at(start_pc)?;
    let Ok(line) = reader.u2() else {
        return Err(ReadFault::BadAttribute);
    };
    Ok(LineNumber { start, line })
}

// The table of one attribute, its count first.
#[tactic(auto, unfolding(jm_class_format::specs::CodeAttribute::line_numbers), using(jm_bytes::proofs::Loops::many_steps))]
fn line_numbers(
    alloc: Global,
    places: &Places,
    reader: &mut Reader<'_>,
) -> Result<Vec<LineNumber>, ReadFault>
    ensures { Gives (λ v. v.items) OutOfMemory result reader.new ((line_numbers places.now).read reader.old) }
{
    let Ok(count) = reader.u2() else {
        return Err(ReadFault::BadAttribute);
    };
    let mut lines = Vec::new(alloc);
    for _ in 0..count {
        let line = line_number(places, reader)?;
        lines.push(line)?;
    }
    Ok(lines)
}

// The table that all of an attribute's bytes spell, after their length.
#[tactic(auto, using(crate::proofs::Attributes::whole_info_steps))]
fn line_table(
    alloc: Global,
    places: &Places,
    reader: &mut Reader<'_>,
) -> Result<Vec<LineNumber>, ReadFault>
    ensures { Gives (λ v. v.items) OutOfMemory result reader.new ((whole_info BadAttribute (line_numbers places.now)).read reader.old) }
{
    let bytes = info(ReadFault::BadAttribute, reader)?;
    let mut inside = Reader::new(bytes);
    let lines = line_numbers(alloc, places, &mut inside)?;
    if !inside.is_empty() {
        return Err(ReadFault::BadAttribute);
    }
    Ok(lines)
}

// ---- the attributes of a code

// Puts the lines of one attribute more behind those so far, or skips it.
#[tactic(auto, unfolding(jm_class_format::specs::CodeAttribute::code_attribute_info))]
fn code_attribute_info(
    alloc: Global,
    places: &Places,
    mut lines: Vec<LineNumber>,
    is_line_table: bool,
    reader: &mut Reader<'_>,
) -> Result<Vec<LineNumber>, ReadFault>
    ensures { Gives (λ v. v.items) OutOfMemory result reader.new ((code_attribute_info places.now lines.items is_line_table).read reader.old) }
{
    if is_line_table {
        let more = line_table(alloc, places, reader)?;
        lines.extend_from_slice(&more)?;
    } else {
        info(ReadFault::BadAttribute, reader)?;
    }
    Ok(lines)
}

#[tactic(auto, unfolding(jm_class_format::specs::CodeAttribute::code_attribute))]
fn code_attribute(
    alloc: Global,
    pool: &Pool,
    places: &Places,
    lines: Vec<LineNumber>,
    reader: &mut Reader<'_>,
) -> Result<Vec<LineNumber>, ReadFault>
    ensures { Gives (λ v. v.items) OutOfMemory result reader.new ((code_attribute pool.now places.now lines.items).read reader.old) }
{
    let name = attribute_name(ReadFault::BadAttribute, pool, reader)?;
    let is_line_table = is_text(name, b"LineNumberTable");
    code_attribute_info(alloc, places, lines, is_line_table, reader)
}

// The line number tables, joined in their order; all other attributes are skipped.
#[tactic(auto, unfolding(jm_class_format::specs::CodeAttribute::code_attributes), using(jm_bytes::proofs::Loops::repeated_steps))]
fn code_attributes(
    alloc: Global,
    pool: &Pool,
    places: &Places,
    reader: &mut Reader<'_>,
) -> Result<Vec<LineNumber>, ReadFault>
    ensures { Gives (λ v. v.items) OutOfMemory result reader.new ((code_attributes pool.now places.now).read reader.old) }
{
    let Ok(count) = reader.u2() else {
        return Err(ReadFault::BadAttribute);
    };
    let mut lines = Vec::new(alloc);
    for _ in 0..count {
        lines = code_attribute(alloc, pool, places, lines, reader)?;
    }
    Ok(lines)
}

// ---- the attribute

// max_stack and max_locals, which holds so many slots of arguments.
#[tactic(auto, unfolding(jm_class_format::specs::CodeAttribute::limits))]
fn limits(slots: u16, reader: &mut Reader<'_>) -> Result<(u16, u16), ReadFault>
    ensures { Takes result reader.new ((limits slots).read reader.old) }
{
    let Ok(max_stack) = reader.u2() else {
        return Err(ReadFault::BadAttribute);
    };
    let Ok(max_locals) = reader.u2() else {
        return Err(ReadFault::BadAttribute);
    };
    if max_locals < slots {
        return Err(ReadFault::BadAttribute);
    }
    Ok((max_stack, max_locals))
}

// The length of the code, from 1 to 65,535.
#[tactic(auto, unfolding(jm_class_format::specs::CodeAttribute::code_length))]
fn code_length(reader: &mut Reader<'_>) -> Result<u32, ReadFault>
    ensures { Takes result reader.new (code_length.read reader.old) }
{
    let Ok(length) = reader.u4() else {
        return Err(ReadFault::BadAttribute);
    };
    if length == 0 || length >= 65_536 {
        return Err(ReadFault::BadAttribute);
    }
    Ok(length)
}

// The instructions of the next so many bytes, and where they begin.
fn placed_instructions(
    alloc: Global,
    size: u32,
    reader: &mut Reader<'_>,
) -> Result<(Vec<PlacedInstr>, Starts), ReadFault>
    ensures few { IfOk result (λ x. length x.0.items ≤ 65535) }
    ensures starts { IfOk result (λ x. x.1 ≡ map (λ (p : PlacedInstr). p.offset) x.0.items) }
    ensures given { Gives (λ x. x.0.items) OutOfMemory result reader.new ((within BadAttribute size file_code).read reader.old) }
{
    let Ok(bytes) = reader.take(size as usize) else {
        return Err(ReadFault::BadAttribute);
    };
    match decode_placed(alloc, bytes) {
        Ok(placed) => Ok(placed),
        Err(fault) => Err(ReadFault::from(fault)),
    }
}

/// The code of a method whose arguments, its receiver included, take so many slots. The code is
/// read first, and then what its indexes name.
#[tactic(auto, unfolding(jm_class_format::specs::CodeAttribute::code_body, jm_class_format::specs::CodeAttribute::code_tables))]
pub fn code_body(
    alloc: Global,
    symbols: &mut Symbols<'_>,
    slots: u16,
    reader: &mut Reader<'_>,
) -> Result<Code, ReadFault>
    ensures given { Gives (λ code. code) OutOfMemory result reader.new ((code_body symbols.old slots).read reader.old) }
    ensures same { symbols.new ≡ symbols.old }
{
    let (max_stack, max_locals) = limits(slots, reader)?;
    let size = code_length(reader)?;
    let (placed, starts) = placed_instructions(alloc, size, reader)?;
    let places = Places::new(starts, placed.len() as u32, size);
    let instructions = match instructions_of(alloc, symbols, placed) {
        Ok(instructions) => instructions,
        Err(fault) => {
            drop(places);
            return Err(fault);
        }
    };
    let handlers = match handlers(alloc, symbols, &places, reader) {
        Ok(handlers) => handlers,
        Err(fault) => {
            drop(places);
            drop(instructions);
            return Err(fault);
        }
    };
    let lines = code_attributes(alloc, symbols.pool(), &places, reader);
    drop(places);
    match lines {
        Ok(lines) => Ok(Code {
            max_stack,
            max_locals,
            instructions: Sequence::new(instructions),
            handlers: Sequence::new(handlers),
            lines: Sequence::new(lines),
        }),
        Err(fault) => {
            drop(instructions);
            drop(handlers);
            Err(fault)
        }
    }
}
