// What holds of the definitions.

ghost use Rattle.jm_jasmin_ops.specs.Mnemonics.{IsNamed};
ghost use Rattle.jm_jasmin_ops.specs.Fitting.{SpelledKeepsRules};

/// The opcode of each byte of a class file is the one that its mnemonic names, so that no two
/// instructions have one mnemonic (JVMS 6.5, 7).
pub fn each_opcode_is_named()
    ensures { IsNamed }
{}

/// An instruction that tokens spell keeps the rules of its operands, whatever its labels come to:
/// one without a target can stand in any code, a table has a target and its last key is an int,
/// and the keys of pairs rise (JVMS 4.9.1, 6.5).
pub fn spelled_instructions_keep_rules()
    ensures { SpelledKeepsRules }
{}
