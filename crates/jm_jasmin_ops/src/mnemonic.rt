//! The opcode that a word names by its mnemonic (JVMS 6.5, 7).

ghost use Rattle.std.specs.Prelude.{◌≡◌, find};
ghost use Rattle.std.specs.Option.{option_map};
ghost use Rattle.jm_program.specs.Names.{same_text};
ghost use Rattle.jm_jasmin_ops.specs.Mnemonics.{by_word, opcode_named};

use jm_class_format::{Opcode, opcodes};
use jm_program::InvokeOp;

// What the first row of a word says, as a search finds it.
fn row_found(rows: &[(&str, Opcode)], word: &str) -> Option<Opcode>
    ensures { result ≡ option_map (λ r. r.1) (find (λ r. same_text r.0.now word.now) rows.now) }
{
    rows.iter()
        .find(|(mnemonic, _)| *mnemonic == word)
        .map(|(_, opcode)| *opcode)
}

// What the first row of a word says.
fn row_named(rows: &[(&str, Opcode)], word: &str) -> Option<Opcode>
    ensures { result ≡ by_word (λ r. r.0.now) (λ r. r.1) rows.now word.now }
{
    row_found(rows, word)
}

/// The opcode that a word names by its mnemonic; `invokenonvirtual` is `invokespecial`.
#[tactic(auto, unfolding(crate::specs::Mnemonics::opcode_named))]
pub fn opcode_named(word: &str) -> Option<Opcode>
    ensures { result ≡ opcode_named word.now }
{
    if word == "invokenonvirtual" {
        return Some(Opcode::Invoke(InvokeOp::Special));
    }
    row_named(opcodes(), word)
}
