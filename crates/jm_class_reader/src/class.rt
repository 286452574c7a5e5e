// The class file (JVMS 4.1): magic and version, the pool, the class, its members and its attributes.

ghost use Rattle.std.specs.Prelude.{◌≡◌, true, Ok, IfOk};
ghost use Rattle.jm_bytes.specs.Reading.{Gives, GivesAll, Takes};
ghost use Rattle.jm_program.specs.Fits.{version_fits};
ghost use Rattle.jm_program.specs.declared.class.ClassParts.{ClassParts};
ghost use Rattle.jm_class_format.specs.declared.read_fault.ReadFault.TheVariants.{OutOfMemory, Cut};
ghost use Rattle.jm_class_format.specs.CodeAttribute.{whole_info};
ghost use Rattle.jm_class_reader.specs.BehindPool.{behind_pool};
ghost use Rattle.jm_class_format.specs.ClassFile.{version, file_pool, class_name, superclass_at, superclass, interfaces, source_file, class_attribute_info, class_attribute, class_attributes, head, body, parts_of, class, class_file, Spells};

use crate::attribute::{attribute_name, info};
use crate::field::{fields, flags};
use crate::method::methods;
use crate::named_code::{bad_index, class_name_at, text_of};
use crate::symbols::Symbols;
use jm_bytes::Reader;
use jm_class_format::ReadFault;
use jm_pool::Pool;
use jm_program::{AccessFlags, Class, ClassParts, Field, Method, Name, Sequence, Version, is_text};
use std::alloc::Global;
use std::marker::Model;

const MAGIC: u32 = 0xCAFE_BABE;

// ---- magic, version and pool

// The magic number and the version, from 45.0 to 52.0.
#[tactic(auto, unfolding(jm_class_format::specs::ClassFile::version))]
fn version(reader: &mut Reader<'_>) -> Result<Version, ReadFault>
    ensures given { Takes result reader.new (version.read reader.old) }
    ensures fits { IfOk result (λ version. version_fits version ≡ true) }
{
    let magic = reader.u4()?;
    if magic != MAGIC {
        return Err(ReadFault::Magic);
    }
    let minor = reader.u2()?;
    let major = reader.u2()?;
    let version = Version { major, minor };
    if !version.fits() {
        return Err(ReadFault::Version);
    }
    Ok(version)
}

#[tactic(auto, unfolding(jm_class_format::specs::ClassFile::file_pool))]
fn file_pool(alloc: Global, reader: &mut Reader<'_>) -> Result<Pool, ReadFault>
    ensures { Gives (λ pool. pool) OutOfMemory result reader.new (file_pool.read reader.old) }
{
    match Pool::take(alloc, reader) {
        Ok(pool) => Ok(pool),
        Err(fault) => Err(ReadFault::from(fault)),
    }
}

// ---- the class, its superclass and its interfaces

// The class that the next index names.
#[tactic(auto, unfolding(jm_class_format::specs::ClassFile::class_name))]
fn class_name(
    alloc: Global,
    symbols: &mut Symbols<'_>,
    reader: &mut Reader<'_>,
) -> Result<Name, ReadFault>
    ensures given { Gives (λ name. name) OutOfMemory result reader.new ((class_name symbols.old).read reader.old) }
    ensures same { symbols.new ≡ symbols.old }
{
    let index = reader.u2()?;
    class_name_at(alloc, symbols, index)
}

// No superclass for 0, in java/lang/Object alone.
#[tactic(auto, unfolding(jm_class_format::specs::ClassFile::superclass_at))]
fn superclass_at(
    alloc: Global,
    symbols: &mut Symbols<'_>,
    name: &Name,
    index: u16,
) -> Result<Option<Name>, ReadFault>
    ensures given { GivesAll (λ name. name) OutOfMemory result (superclass_at symbols.old name.now index) }
    ensures same { symbols.new ≡ symbols.old }
{
    if index == 0 {
        return if name.is_object() {
            Ok(None)
        } else {
            Err(bad_index(0))
        };
    }
    let superclass = class_name_at(alloc, symbols, index)?;
    Ok(Some(superclass))
}

#[tactic(auto, unfolding(jm_class_format::specs::ClassFile::superclass))]
fn superclass(
    alloc: Global,
    symbols: &mut Symbols<'_>,
    name: &Name,
    reader: &mut Reader<'_>,
) -> Result<Option<Name>, ReadFault>
    ensures given { Gives (λ name. name) OutOfMemory result reader.new ((superclass symbols.old name.now).read reader.old) }
    ensures same { symbols.new ≡ symbols.old }
{
    let index = reader.u2()?;
    superclass_at(alloc, symbols, name, index)
}

// The interfaces, their count first.
#[tactic(auto, unfolding(jm_class_format::specs::ClassFile::interfaces), using(jm_bytes::proofs::Loops::many_steps))]
fn interfaces(
    alloc: Global,
    symbols: &mut Symbols<'_>,
    reader: &mut Reader<'_>,
) -> Result<Vec<Name>, ReadFault>
    ensures given { Gives (λ v. v.items) OutOfMemory result reader.new ((interfaces symbols.old).read reader.old) }
    ensures same { symbols.new ≡ symbols.old }
{
    let count = reader.u2()?;
    let mut names = Vec::new(alloc);
    for _ in 0..count {
        let name = class_name(alloc, symbols, reader)?;
        names.push(name)?;
    }
    Ok(names)
}

// ---- the attributes of the class

// The name of the source file (JVMS 4.7.10).
#[tactic(auto, unfolding(jm_class_format::specs::ClassFile::source_file))]
fn source_file(
    alloc: Global,
    pool: &Pool,
    reader: &mut Reader<'_>,
) -> Result<Sequence<u16>, ReadFault>
    ensures { Gives (λ file. file) OutOfMemory result reader.new ((source_file pool.now).read reader.old) }
{
    let Ok(index) = reader.u2() else {
        return Err(ReadFault::BadAttribute);
    };
    text_of(alloc, pool, index)
}

// The name that all of an attribute's bytes spell, after their length.
#[tactic(auto, using(crate::proofs::Attributes::whole_info_steps))]
fn whole_source_file(
    alloc: Global,
    pool: &Pool,
    reader: &mut Reader<'_>,
) -> Result<Sequence<u16>, ReadFault>
    ensures { Gives (λ file. file) OutOfMemory result reader.new ((whole_info Cut (source_file pool.now)).read reader.old) }
{
    let bytes = info(ReadFault::Cut, reader)?;
    let mut inside = Reader::new(bytes);
    let file = source_file(alloc, pool, &mut inside)?;
    if !inside.is_empty() {
        return Err(ReadFault::BadAttribute);
    }
    Ok(file)
}

// The one SourceFile, or what was found before where the attribute is skipped.
#[tactic(auto, unfolding(jm_class_format::specs::ClassFile::class_attribute_info))]
fn class_attribute_info(
    alloc: Global,
    pool: &Pool,
    found: Option<Sequence<u16>>,
    is_source_file: bool,
    reader: &mut Reader<'_>,
) -> Result<Option<Sequence<u16>>, ReadFault>
    ensures { Gives (λ found. found) OutOfMemory result reader.new ((class_attribute_info pool.now found is_source_file).read reader.old) }
{
    if is_source_file {
        if found.is_some() {
            return Err(ReadFault::BadAttribute);
        }
        let file = whole_source_file(alloc, pool, reader)?;
        Ok(Some(file))
    } else {
        info(ReadFault::Cut, reader)?;
        Ok(found)
    }
}

// One attribute more.
#[tactic(auto, unfolding(jm_class_format::specs::ClassFile::class_attribute))]
fn class_attribute(
    alloc: Global,
    pool: &Pool,
    found: Option<Sequence<u16>>,
    reader: &mut Reader<'_>,
) -> Result<Option<Sequence<u16>>, ReadFault>
    ensures { Gives (λ found. found) OutOfMemory result reader.new ((class_attribute pool.now found).read reader.old) }
{
    let name = attribute_name(ReadFault::Cut, pool, reader)?;
    let is_source_file = is_text(name, b"SourceFile");
    class_attribute_info(alloc, pool, found, is_source_file, reader)
}

// The name of the source file, the attributes' count first.
#[tactic(auto, unfolding(jm_class_format::specs::ClassFile::class_attributes), using(jm_bytes::proofs::Loops::repeated_steps))]
fn class_attributes(
    alloc: Global,
    pool: &Pool,
    reader: &mut Reader<'_>,
) -> Result<Option<Sequence<u16>>, ReadFault>
    ensures { Gives (λ found. found) OutOfMemory result reader.new ((class_attributes pool.now).read reader.old) }
{
    let count = reader.u2()?;
    let mut found = None;
    for _ in 0..count {
        found = class_attribute(alloc, pool, found, reader)?;
    }
    Ok(found)
}

// ---- the class

// Flags, the class, its superclass and its interfaces.
#[derive(Drop)]
struct Head {
    access: AccessFlags,
    name: Name,
    superclass: Option<Name>,
    interfaces: Sequence<Name>,
}

impl Model for Head {
    ghost use Rattle.jm_class_format.specs.ClassFile as format;

    ghost Value = { format.Head };

    ghost view = { λ h. record { access = h.access; name = h.name; superclass = h.superclass; interfaces = h.interfaces } };
}

// Fields, methods and the source file.
#[derive(Drop)]
struct Body {
    fields: Sequence<Field>,
    methods: Sequence<Method>,
    source_file: Option<Sequence<u16>>,
}

impl Model for Body {
    ghost use Rattle.jm_class_format.specs.ClassFile as format;

    ghost Value = { format.Body };

    ghost view = { λ b. record { fields = b.fields; methods = b.methods; source_file = b.source_file } };
}

#[tactic(auto, unfolding(jm_class_format::specs::ClassFile::head))]
fn head_of(
    alloc: Global,
    symbols: &mut Symbols<'_>,
    reader: &mut Reader<'_>,
) -> Result<Head, ReadFault>
    ensures given { Gives (λ head. head) OutOfMemory result reader.new ((head symbols.old).read reader.old) }
    ensures same { symbols.new ≡ symbols.old }
{
    let access = flags(reader)?;
    let name = class_name(alloc, symbols, reader)?;
    let superclass = match superclass(alloc, symbols, &name, reader) {
        Ok(superclass) => superclass,
        Err(fault) => {
            drop(name);
            return Err(fault);
        }
    };
    match interfaces(alloc, symbols, reader) {
        Ok(interfaces) => Ok(Head {
            access,
            name,
            superclass,
            interfaces: Sequence::new(interfaces),
        }),
        Err(fault) => {
            drop(name);
            drop(superclass);
            Err(fault)
        }
    }
}

#[tactic(auto, unfolding(jm_class_format::specs::ClassFile::body))]
fn body_of(
    alloc: Global,
    symbols: &mut Symbols<'_>,
    in_interface: bool,
    reader: &mut Reader<'_>,
) -> Result<Body, ReadFault>
    ensures given { Gives (λ body. body) OutOfMemory result reader.new ((body symbols.old in_interface).read reader.old) }
    ensures same { symbols.new ≡ symbols.old }
{
    let fields = fields(alloc, symbols, reader)?;
    let methods = methods(alloc, symbols, in_interface, reader)?;
    let source_file = class_attributes(alloc, symbols.pool(), reader)?;
    Ok(Body {
        fields: Sequence::new(fields),
        methods: Sequence::new(methods),
        source_file,
    })
}

fn parts_of(version: Version, head: Head, body: Body) -> ClassParts
    ensures { result ≡ parts_of version head body }
{
    ClassParts {
        version,
        flags: head.access,
        name: head.name,
        superclass: head.superclass,
        interfaces: head.interfaces,
        fields: body.fields,
        methods: body.methods,
        source_file: body.source_file,
    }
}

// The parts of a class of such a version, behind its pool. What is read keeps the rules of a
// class, so that no test of them is left.
#[tactic(auto, unfolding(crate::specs::BehindPool::behind_pool), using(crate::proofs::PartsFit::parts_fit))]
fn parts(
    alloc: Global,
    version: Version,
    symbols: &mut Symbols<'_>,
    reader: &mut Reader<'_>,
) -> Result<ClassParts, ReadFault>
    requires { version_fits version ≡ true }
    ensures given { Gives (λ parts. parts) OutOfMemory result reader.new ((behind_pool version symbols.old).read reader.old) }
{
    let head = head_of(alloc, symbols, reader)?;
    let in_interface = head.access.has(AccessFlags::INTERFACE);
    match body_of(alloc, symbols, in_interface, reader) {
        Ok(body) => Ok(parts_of(version, head, body)),
        Err(fault) => {
            drop(head);
            Err(fault)
        }
    }
}

fn parts_behind(
    alloc: Global,
    version: Version,
    pool: &Pool,
    reader: &mut Reader<'_>,
) -> Result<ClassParts, ReadFault>
    requires { version_fits version ≡ true }
    ensures { Gives (λ parts. parts) OutOfMemory result reader.new ((behind_pool version pool.now).read reader.old) }
{
    let mut symbols = Symbols::new(alloc, pool);
    let parts = parts(alloc, version, &mut symbols, reader);
    drop(symbols);
    parts
}

// The parts of the class at the front of the bytes.
#[tactic(auto, unfolding(jm_class_format::specs::ClassFile::class, crate::specs::BehindPool::behind_pool))]
fn class(alloc: Global, reader: &mut Reader<'_>) -> Result<ClassParts, ReadFault>
    ensures { Gives (λ parts. parts) OutOfMemory result reader.new (class.read reader.old) }
{
    let version = version(reader)?;
    let pool = file_pool(alloc, reader)?;
    parts_behind(alloc, version, &pool, reader)
}

// The class that all of the bytes spell.
#[tactic(auto, using(jm_class_format::proofs::ReadFits::class_keeps_rules))]
fn whole_class(alloc: Global, bytes: &[u8]) -> Result<Class, ReadFault>
    ensures { GivesAll (λ class. class) OutOfMemory result (class_file.read bytes.now) }
{
    let mut reader = Reader::new(bytes);
    let parts = class(alloc, &mut reader)?;
    if !reader.is_empty() {
        return Err(ReadFault::Trailing);
    }
    Ok(Class::new(parts))
}

/// The class that the bytes of a class file spell (JVMS 4.1). It takes time and memory in the
/// bytes that are there, whatever counts and lengths they claim: what a text or an operand names
/// is made at its first use, and the other uses share it.
///
/// # Errors
/// The first fault in this order. The magic number and the version (30, 31); the pool in the order
/// of its bytes (20, 24, 35) and then its references and texts by index (21, 22); then everything
/// in the order of the bytes, an index being looked at where it is read and a code (10 to 13, 16)
/// before what its instructions name (1, 2, 21, 35): 32 where the bytes end outside the pool, 34
/// for an attribute that breaks the rules of JVMS 4.7; and last 33 where bytes follow the class.
/// [`ReadFault::OutOfMemory`] where a growth was refused.
pub fn read_class(alloc: Global, bytes: &[u8]) -> Result<Class, ReadFault>
    ensures spelled { IfOk result (λ class. Spells bytes.now class) }
    // What the bytes spell is given, unless memory runs out.
    ensures only { (class : ClassParts) → Spells bytes.now class → GivesAll (λ class. class) OutOfMemory result (Ok class) }
    // A fault is the one that the definition names.
    ensures exact { GivesAll (λ class. class) OutOfMemory result (class_file.read bytes.now) }
{
    whole_class(alloc, bytes)
}
