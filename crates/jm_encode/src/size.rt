// How many bytes an instruction takes (JVMS 6.5).

ghost use Rattle.std.specs.Prelude.{◌≡◌, ◌+◌, ◌*◌, ◌<◌, ◌^◌, length};
ghost use Rattle.jm_encode.specs.Encoding.{padding_size, local_size, is_short_increment, plain_size, array_size, type_size, size_at};

use jm_class_format::IndexedInstr;
use jm_program::{ArrayOp, Branch, LookupSwitch, Plain, TableSwitch, TypeOp};

/// How many zeros stand behind the opcode of a switch, so that what follows stands at a multiple
/// of four (JVMS 6.5 tableswitch).
pub fn padding_size(at: u16) -> usize
    ensures { result ≡ padding_size at }
{
    usize::from(3 - at % 4)
}

#[tactic(auto, unfolding(crate::specs::Encoding::local_size))]
fn local_size(local: u16) -> usize
    ensures { result ≡ local_size local }
{
    if local <= 255 { 2 } else { 4 }
}

/// Whether the operands of `iinc` go into a byte each.
#[tactic(auto, unfolding(crate::specs::Encoding::is_short_increment))]
pub fn is_short_increment(local: u16, n: i16) -> bool
    ensures { result ≡ is_short_increment local n }
{
    local <= 255 && -128 <= n && n <= 127
}

fn table_size(at: u16, table: &TableSwitch) -> usize
    ensures { result ≡ 1 + padding_size at + 12 + 4 * length table.now.targets }
{
    1 + padding_size(at) + 12 + 4 * table.targets.as_slice().len()
}

fn lookup_size(at: u16, lookup: &LookupSwitch) -> usize
    ensures { result ≡ 1 + padding_size at + 8 + 8 * length lookup.now.pairs }
{
    1 + padding_size(at) + 8 + 8 * lookup.pairs.as_slice().len()
}

#[tactic(auto, unfolding(crate::specs::Encoding::plain_size))]
fn plain_size(at: u16, plain: &Plain) -> usize
    ensures { result ≡ plain_size at plain.now }
{
    match plain {
        Plain::Simple(_) => 1,
        Plain::PushByte(_) => 2,
        Plain::PushShort(_) => 3,
        Plain::Load(_, local) | Plain::Store(_, local) => local_size(*local),
        Plain::Increment(local, n) => { if is_short_increment(*local, *n) { 3 } else { 6 } }
        Plain::Branch(Branch::GotoW, _) => 5,
        Plain::Branch(_, _) => 3,
        Plain::TableSwitch(table) => table_size(at, table.get()),
        Plain::LookupSwitch(lookup) => lookup_size(at, lookup.get()),
    }
}

#[tactic(auto, unfolding(crate::specs::Encoding::array_size))]
fn array_size(op: ArrayOp) -> usize
    ensures { result ≡ array_size op }
{
    match op {
        ArrayOp::New(_) => 2,
        _ => 1,
    }
}

#[tactic(auto, unfolding(crate::specs::Encoding::type_size))]
fn type_size(op: TypeOp) -> usize
    ensures { result ≡ type_size op }
{
    match op {
        TypeOp::NewArrays(_) => 4,
        _ => 3,
    }
}

/// How many bytes an instruction takes at an offset.
#[tactic(auto, unfolding(crate::specs::Encoding::size_at))]
pub fn size_at(at: u16, instr: &IndexedInstr) -> usize
    ensures { result ≡ size_at at instr.now }
{
    match instr {
        IndexedInstr::Plain(plain) => plain_size(at, plain),
        IndexedInstr::Array(op) => array_size(*op),
        IndexedInstr::Return(_) | IndexedInstr::Throw | IndexedInstr::Monitor(_) => 1,
        IndexedInstr::Constant(index) => { if *index <= 255 { 2 } else { 3 } }
        IndexedInstr::InvokeInterface(_, _, _) => 5,
        IndexedInstr::LongConstant(_)
        | IndexedInstr::Field(_, _)
        | IndexedInstr::Invoke(_, _)
        | IndexedInstr::New(_) => 3,
        IndexedInstr::Type(op, _) => type_size(*op),
    }
}
