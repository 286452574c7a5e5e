// Which instructions a code can have.

ghost use Rattle.std.specs.Prelude.{◌≡◌, Option, ℤ, nat_lt};
ghost use Rattle.std.specs.List.{list_all};
ghost use Rattle.jm_program.specs.Instructions.{has_high, table_fits, is_above, keys_rise, lookup_fits, plain_fits, can_be_element, has_dimensions, type_op_fits, instr_fits};
ghost use Rattle.jm_program.specs.declared.instruction.plain.SwitchPair.{SwitchPair};

use crate::instruction::operation::TypeOp;
use crate::instruction::plain::{LookupSwitch, Plain, SwitchPair, TableSwitch};
use crate::instruction::symbolic::Instr;
use crate::reference::ClassRef;

impl TableSwitch {
    /// Whether there is a target, and the key of the last one is an int (JVMS 6.5 tableswitch).
    pub fn has_high(&self) -> bool
        ensures { result ≡ has_high self.now }
    {
        let room = i64::from(i32::MAX) - i64::from(self.low) + 1;
        let count = self.targets.as_slice().len();
        0 < count && count <= room as usize
    }

    /// Whether it can stand in a code of so many instructions.
    pub fn fits(&self, count: usize) -> bool
        ensures { result ≡ table_fits count self.now }
    {
        self.has_high()
            && are_below(self.targets.as_slice(), count)
            && (self.default as usize) < count
    }
}

impl LookupSwitch {
    /// Whether it can stand in a code of so many instructions: the keys rise strictly, and each
    /// target is an instruction (JVMS 6.5 lookupswitch).
    pub fn fits(&self, count: usize) -> bool
        ensures { result ≡ lookup_fits count self.now }
    {
        keys_rise(self.pairs.as_slice())
            && pairs_are_below(self.pairs.as_slice(), count)
            && (self.default as usize) < count
    }
}

impl Plain {
    /// Whether it can stand in a code of so many instructions (JVMS 4.9.1).
    pub fn fits(&self, count: usize) -> bool
        ensures { result ≡ plain_fits count self.now }
    {
        match self {
            Plain::Branch(_, target) => (*target as usize) < count,
            Plain::TableSwitch(table) => table.get().fits(count),
            Plain::LookupSwitch(lookup) => lookup.get().fits(count),
            _ => true,
        }
    }
}

impl Instr {
    /// Whether it can stand in a code of so many instructions, and names what the profile has
    /// (JVMS 4.9.1).
    pub fn fits(&self, count: usize) -> bool
        ensures { result ≡ instr_fits count self.now }
    {
        match self {
            Instr::Plain(plain) => plain.fits(count),
            Instr::Field(_, field) => field.get().fits(),
            Instr::Invoke(op, method) => method.get().fits(*op),
            Instr::New(name) => name.get().is_class_name(),
            Instr::Type(op, class) => type_op_fits(*op, class.get()),
            _ => true,
        }
    }
}

fn are_below(targets: &[u32], count: usize) -> bool
    ensures { result ≡ list_all (λ target. nat_lt target count) targets.now }
{
    targets.iter().all(|target| (*target as usize) < count)
}

fn pairs_are_below(pairs: &[SwitchPair], count: usize) -> bool
    ensures { result ≡ list_all (λ (pair : SwitchPair). nat_lt pair.target count) pairs.now }
{
    pairs.iter().all(|pair| (pair.target as usize) < count)
}

fn is_above(previous: Option<i32>, key: i32) -> bool
    ensures { result ≡ is_above previous key }
{
    match previous {
        None => true,
        Some(previous) => previous < key,
    }
}

fn keys_rise(pairs: &[SwitchPair]) -> bool
    ensures { result ≡ keys_rise None pairs.now }
{
    let mut previous = None;
    for pair in pairs {
        if !is_above(previous, pair.key) {
            return false;
        }
        previous = Some(pair.key);
    }
    true
}

fn type_op_fits(op: TypeOp, class: &ClassRef) -> bool
    ensures { result ≡ type_op_fits op class.now }
{
    match op {
        TypeOp::NewArray => class.fits() && can_be_element(class),
        TypeOp::NewArrays(dimensions) => class.fits() && has_dimensions(class, dimensions),
        _ => class.fits(),
    }
}

// Whether it is an array type of so many dimensions or more, and they are one or more.
fn has_dimensions(class: &ClassRef, dimensions: u8) -> bool
    ensures { result ≡ has_dimensions class.now dimensions }
{
    match class {
        ClassRef::Class(_) => false,
        ClassRef::Array(array) => 0 < dimensions && dimensions <= array.dimensions,
    }
}

// Whether an array of the type has at most 255 dimensions.
fn can_be_element(class: &ClassRef) -> bool
    ensures { result ≡ can_be_element class.now }
{
    match class {
        ClassRef::Class(_) => true,
        ClassRef::Array(array) => array.dimensions < 255,
    }
}
