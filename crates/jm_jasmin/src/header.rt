// The lines before the fields (Jasmin User Guide, "Jasmin Assembler Directives").

ghost use Rattle.std.specs.Prelude.{◌≡◌, ◌==◌, nat_lt, codes, length, take, drop};
ghost use Rattle.jm_bytes.specs.Reading.{TakesAll, GivesAll};
ghost use Rattle.jm_jasmin_ops.specs.declared.fault.AsmFault.TheVariants.{OutOfMemory};
ghost use Rattle.jm_jasmin.specs.Lines.{Reads, by_line, required, optional, line_number};
ghost use Rattle.jm_jasmin.specs.Header.{digits_from, decimal, version_of, parted_version, version_in, or_syntax, version_line, version_or_default, source_line, declared_line, declared_at, class_line, interfaces, header};

use crate::lines::{Lines, line_number};
use crate::symbols::{class_name_at, position_of, units_at};
use crate::words::{flags_before, only_operand, with_length_from};
use jm_jasmin_lex::Token;
use jm_jasmin_ops::AsmFault;
use jm_program::{AccessFlags, Name, Sequence, Version};
use std::alloc::Global;

const POINT: u16 = 46;

/// The flags and the name of a class or an interface.
#[derive(Drop)]
pub struct Declared {
    pub flags: AccessFlags,
    pub name: Name,
}

/// What the lines before the fields say.
#[derive(Drop)]
pub struct Header {
    pub version: Version,
    pub source_file: Option<Sequence<u16>>,
    pub flags: AccessFlags,
    pub name: Name,
    pub superclass: Name,
    pub interfaces: Sequence<Name>,
}

// ---- .bytecode MAJOR.MINOR

// The number that decimal digits are, at most 65,535.
#[tactic(auto, using(crate::proofs::Digits::digit_steps))]
fn digits(units: &[u16]) -> Option<u16>
    ensures { result ≡ digits_from 0 units.now }
{
    let mut value = 0u32;
    for unit in units {
        let digit = u32::from(*unit);
        if digit < 48 {
            return None;
        }
        if 57 < digit {
            return None;
        }
        value = value * 10 + (digit - 48);
        if 65_535 < value {
            return None;
        }
    }
    Some(value as u16)
}

#[tactic(auto, unfolding(crate::specs::Header::decimal))]
fn decimal(units: &[u16]) -> Option<u16>
    ensures { result ≡ decimal units.now }
{
    if units.is_empty() {
        return None;
    }
    digits(units)
}

fn version_of(major: Option<u16>, minor: Option<u16>) -> Option<Version>
    ensures { result ≡ version_of major minor }
{
    let (Some(major), Some(minor)) = (major, minor) else {
        return None;
    };
    let version = Version { major, minor };
    if version.fits() { Some(version) } else { None }
}

#[tactic(auto, unfolding(crate::specs::Header::version_in))]
fn version_in(units: &[u16]) -> Option<Version>
    ensures { result ≡ version_in units.now }
{
    match position_of(units, POINT) {
        None => None,
        Some(at) => {
            let (major, _) = units.split_at(at);
            let (_, minor) = units.split_at(at + 1);
            version_of(decimal(major), decimal(minor))
        }
    }
}

#[tactic(auto, unfolding(crate::specs::Header::version_line))]
fn version_line(alloc: Global, line: &[Token<'_>]) -> Result<Version, AsmFault>
    ensures { GivesAll (λ v. v) OutOfMemory result (version_line line.now) }
{
    only_operand(line)?;
    let units = units_at(alloc, line, 1)?;
    match version_in(&units) {
        Some(version) => Ok(version),
        None => Err(AsmFault::Syntax(line_number(line))),
    }
}

#[tactic(auto, unfolding(crate::specs::Lines::optional, crate::specs::Lines::by_line))]
fn version_at(alloc: Global, lines: &mut Lines<'_, '_>) -> Result<Option<Version>, AsmFault>
    ensures { Reads (λ v. v) result lines.new (optional (codes ".bytecode") version_line lines.old) }
{
    if !lines.begins(".bytecode") {
        return Ok(None);
    }
    let line = lines.next_line();
    let version = version_line(alloc, line)?;
    Ok(Some(version))
}

// 49.0 where the text has none.
fn version_or_default(version: Option<Version>) -> Version
    ensures { result ≡ version_or_default version }
{
    match version {
        None => Version {
            major: 49,
            minor: 0,
        },
        Some(version) => version,
    }
}

// ---- .source NAME

#[tactic(auto, unfolding(crate::specs::Header::source_line))]
fn source_line(alloc: Global, line: &[Token<'_>]) -> Result<Sequence<u16>, AsmFault>
    ensures { GivesAll (λ units. units) OutOfMemory result (source_line line.now) }
{
    only_operand(line)?;
    let units = units_at(alloc, line, 1)?;
    Ok(Sequence::new(units))
}

#[tactic(auto, unfolding(crate::specs::Lines::optional, crate::specs::Lines::by_line))]
fn source_at(alloc: Global, lines: &mut Lines<'_, '_>) -> Result<Option<Sequence<u16>>, AsmFault>
    ensures { Reads (λ units. units) result lines.new (optional (codes ".source") source_line lines.old) }
{
    if !lines.begins(".source") {
        return Ok(None);
    }
    let line = lines.next_line();
    let units = source_line(alloc, line)?;
    Ok(Some(units))
}

// ---- .class [flags] NAME, .interface [flags] NAME

#[tactic(auto, unfolding(crate::specs::Header::declared_line))]
fn declared_line(alloc: Global, bits: u16, line: &[Token<'_>]) -> Result<Declared, AsmFault>
    ensures { GivesAll (λ d. d) OutOfMemory result (declared_line bits line.now) }
{
    with_length_from(line, 2)?;
    let flags = flags_before(bits, line, line.len() - 1)?;
    let name = class_name_at(alloc, line, line.len() - 1)?;
    Ok(Declared { flags, name })
}

#[tactic(auto, unfolding(crate::specs::Header::declared_at, crate::specs::Lines::required, crate::specs::Lines::by_line))]
fn declared_at(alloc: Global, lines: &mut Lines<'_, '_>) -> Result<Declared, AsmFault>
    ensures { Reads (λ d. d) result lines.new (declared_at lines.old) }
{
    let bits = if lines.begins(".interface") {
        AccessFlags::INTERFACE | AccessFlags::ABSTRACT
    } else if lines.begins(".class") {
        AccessFlags::SUPER
    } else {
        return Err(lines.misplaced());
    };
    let line = lines.next_line();
    declared_line(alloc, bits, line)
}

// ---- .super NAME, .implements NAME

#[tactic(auto, unfolding(crate::specs::Header::class_line))]
fn class_line(alloc: Global, line: &[Token<'_>]) -> Result<Name, AsmFault>
    ensures { GivesAll (λ name. name) OutOfMemory result (class_line line.now) }
{
    only_operand(line)?;
    class_name_at(alloc, line, 1)
}

#[tactic(auto, unfolding(crate::specs::Lines::required, crate::specs::Lines::by_line))]
fn superclass(alloc: Global, lines: &mut Lines<'_, '_>) -> Result<Name, AsmFault>
    ensures { Reads (λ name. name) result lines.new (required (codes ".super") class_line lines.old) }
{
    if !lines.begins(".super") {
        return Err(lines.misplaced());
    }
    let line = lines.next_line();
    class_line(alloc, line)
}

#[tactic(auto, unfolding(crate::specs::Lines::by_line))]
fn interface(alloc: Global, lines: &mut Lines<'_, '_>) -> Result<Name, AsmFault>
    ensures { Reads (λ name. name) result lines.new (by_line class_line lines.old) }
{
    let line = lines.next_line();
    class_line(alloc, line)
}

#[tactic(auto, unfolding(crate::specs::Header::interfaces), using(crate::proofs::Steps::steps))]
fn interfaces(alloc: Global, lines: &mut Lines<'_, '_>) -> Result<Vec<Name>, AsmFault>
    ensures { Reads (λ v. v.items) result lines.new (interfaces lines.old) }
{
    let count = lines.len();
    let mut names = Vec::new(alloc);
    for _ in 0..count {
        if !lines.begins(".implements") {
            return Ok(names);
        }
        let name = interface(alloc, lines)?;
        names.push(name)?;
    }
    Ok(names)
}

/// The lines up to the fields.
#[tactic(auto, unfolding(crate::specs::Header::header))]
pub fn read_header(alloc: Global, lines: &mut Lines<'_, '_>) -> Result<Header, AsmFault>
    ensures { Reads (λ h. h) result lines.new (header lines.old) }
{
    let version = version_at(alloc, lines)?;
    let source_file = source_at(alloc, lines)?;
    let declared = match declared_at(alloc, lines) {
        Ok(declared) => declared,
        Err(fault) => {
            drop(source_file);
            return Err(fault);
        }
    };
    let superclass = match superclass(alloc, lines) {
        Ok(superclass) => superclass,
        Err(fault) => {
            drop(source_file);
            drop(declared);
            return Err(fault);
        }
    };
    match interfaces(alloc, lines) {
        Ok(interfaces) => Ok(Header {
            version: version_or_default(version),
            source_file,
            flags: declared.flags,
            name: declared.name,
            superclass,
            interfaces: Sequence::new(interfaces),
        }),
        Err(fault) => {
            drop(source_file);
            drop(declared);
            drop(superclass);
            Err(fault)
        }
    }
}
