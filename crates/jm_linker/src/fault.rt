// Why a program is not linked.

ghost use Rattle.std.specs.Prelude.{◌≡◌, Some, IfOk};
ghost use Rattle.jm_linker.specs.FaultTexts.{fault_text};
ghost use Rattle.jm_linker.specs.Answers.{SaysWhy};
ghost use Rattle.jm_world.specs.Loads.{duplicate_class, no_class, cycle, no_field, no_method, wrong_kind, duplicate_member};

use jm_program::Name;
use std::alloc::{AllocError, AllocFailed, Global};
use std::error::Error;
use std::fmt;
use std::fmt::Display;

/// Why a program is not linked, with the name that is at fault.
#[derive(Drop)]
pub enum LinkFault {
    /// Two classes have the name, the built-in ones included.
    DuplicateClass(Name),
    /// Two fields or two methods of a class have the name and one type (JVMS 4.5, 4.6).
    DuplicateMember(Name),
    /// No class has the name (JVMS 5.3).
    NoClass(Name),
    /// The class is above itself (JVMS 5.3.5).
    Cycle(Name),
    /// A class has no such field (JVMS 5.4.3.2).
    NoField(Name),
    /// A class has no such method (JVMS 5.4.3.3, 5.4.3.4).
    NoMethod(Name),
    /// A class, an interface, a static member or another, where it has to be the other one
    /// (JVMS 5.3.5, 5.4.3, 6.5).
    WrongKind(Name),
    /// The first class declares no static main with code.
    NoMain,
    /// A growth was refused.
    OutOfMemory,
}

#[tactic(auto, unfolding(crate::specs::FaultTexts::fault_text))]
impl Display for LinkFault {
    ghost output = { λ fault. Some (fault_text fault) };

    fn fmt<W: fmt::Write>(&self, f: &mut fmt::Formatter<W>) -> fmt::Result {
        match self {
            LinkFault::DuplicateClass(name) => write!(f, "50 DuplicateClass({name})"),
            LinkFault::DuplicateMember(name) => write!(f, "57 DuplicateMember({name})"),
            LinkFault::NoClass(name) => write!(f, "51 NoClass({name})"),
            LinkFault::Cycle(name) => write!(f, "52 Cycle({name})"),
            LinkFault::NoField(name) => write!(f, "53 NoField({name})"),
            LinkFault::NoMethod(name) => write!(f, "54 NoMethod({name})"),
            LinkFault::WrongKind(name) => write!(f, "55 WrongKind({name})"),
            LinkFault::NoMain => f.write_str("56 NoMain"),
            LinkFault::OutOfMemory => f.write_str("61 OutOfMemory"),
        }
    }
}

/// As it is displayed.
impl fmt::Debug for LinkFault {
    fn fmt<W: fmt::Write>(&self, f: &mut fmt::Formatter<W>) -> fmt::Result {
        Display::fmt(self, f)
    }
}

impl Error for LinkFault {}

impl From<AllocError> for LinkFault {
    ghost use Rattle.jm_linker.specs.declared.fault.LinkFault.TheVariants.{OutOfMemory};

    ghost from_gives = { λ _ fault. fault ≡ OutOfMemory };

    fn from(_error: AllocError) -> LinkFault {
        LinkFault::OutOfMemory
    }
}

impl<T: Drop> From<AllocFailed<T>> for LinkFault {
    ghost use Rattle.jm_linker.specs.declared.fault.LinkFault.TheVariants.{OutOfMemory};

    ghost from_gives = { λ _ fault. fault ≡ OutOfMemory };

    fn from(_error: AllocFailed<T>) -> LinkFault {
        LinkFault::OutOfMemory
    }
}

/// The fault of two classes of the name, or that memory was refused.
pub fn duplicate_class(alloc: Global, name: &Name) -> LinkFault
    ensures { SaysWhy result (Some (duplicate_class name.now)) }
{
    match name.copy(alloc) {
        Ok(name) => LinkFault::DuplicateClass(name),
        Err(_) => LinkFault::OutOfMemory,
    }
}

/// The fault of two members of the name, or that memory was refused.
pub fn duplicate_member(alloc: Global, name: &Name) -> LinkFault
    ensures { SaysWhy result (Some (duplicate_member name.now)) }
{
    match name.copy(alloc) {
        Ok(name) => LinkFault::DuplicateMember(name),
        Err(_) => LinkFault::OutOfMemory,
    }
}

/// The fault of a class that is not there, or that memory was refused.
pub fn no_class(alloc: Global, name: &Name) -> LinkFault
    ensures { SaysWhy result (Some (no_class name.now)) }
{
    match name.copy(alloc) {
        Ok(name) => LinkFault::NoClass(name),
        Err(_) => LinkFault::OutOfMemory,
    }
}

/// The fault of a class above itself, or that memory was refused.
pub fn cycle(alloc: Global, name: &Name) -> LinkFault
    ensures { SaysWhy result (Some (cycle name.now)) }
{
    match name.copy(alloc) {
        Ok(name) => LinkFault::Cycle(name),
        Err(_) => LinkFault::OutOfMemory,
    }
}

/// The fault of a field that is not there, or that memory was refused.
pub fn no_field(alloc: Global, name: &Name) -> LinkFault
    ensures { SaysWhy result (Some (no_field name.now)) }
{
    match name.copy(alloc) {
        Ok(name) => LinkFault::NoField(name),
        Err(_) => LinkFault::OutOfMemory,
    }
}

/// The fault of a method that is not there, or that memory was refused.
pub fn no_method(alloc: Global, name: &Name) -> LinkFault
    ensures { SaysWhy result (Some (no_method name.now)) }
{
    match name.copy(alloc) {
        Ok(name) => LinkFault::NoMethod(name),
        Err(_) => LinkFault::OutOfMemory,
    }
}

/// The fault of a class or a member of the wrong kind, or that memory was refused.
pub fn wrong_kind(alloc: Global, name: &Name) -> LinkFault
    ensures { SaysWhy result (Some (wrong_kind name.now)) }
{
    match name.copy(alloc) {
        Ok(name) => LinkFault::WrongKind(name),
        Err(_) => LinkFault::OutOfMemory,
    }
}
