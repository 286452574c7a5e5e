// What the definitions promise of one another, each as a call that does nothing.

ghost use Rattle.std.specs.Prelude.{◌≡◌, ℕ, List, Ok, Err, true};
ghost use Rattle.jm_program.specs.Fits.{Fits};
ghost use Rattle.jm_program.specs.declared.class.ClassParts.{ClassParts};
ghost use Rattle.jm_program.specs.Codes.{code_fits};
ghost use Rattle.jm_program.specs.declared.code.Code.{Code};
ghost use Rattle.jm_program.specs.declared.code.LineNumber.{LineNumber};
ghost use Rattle.jm_program.specs.declared.constant.Constant.{Constant};
ghost use Rattle.jm_class_format.specs.ClassFile.{Spells, class_file};
ghost use Rattle.jm_class_format.specs.declared.instruction.IndexedInstr.{IndexedInstr};
ghost use Rattle.jm_encode.specs.declared.encoded.EncodedCode.{EncodedCode};
ghost use Rattle.jm_encode.specs.declared.fault.EncodeFault.TheVariants.{BadTarget};
ghost use Rattle.jm_encode.specs.Encoding.{encoded};
ghost use Rattle.jm_class_writer.specs.Drafts.{DraftParts, each_of};
ghost use Rattle.jm_class_writer.specs.declared.fault.WriteFault.TheVariants.{TooMany};
ghost use Rattle.jm_class_writer.specs.Lengths.{LengthFits};
ghost use Rattle.jm_class_writer.specs.Limits.{WithinLimits};
ghost use Rattle.jm_class_writer.specs.CodeParts.{instr_indexed, code_encoded, put_lines, put_name, put_code_body};
ghost use Rattle.jm_class_writer.specs.ClassParts.{put_constant, written};
ghost use Rattle.jm_class_writer.specs.Places.{PlacesFound};
ghost use Rattle.jm_class_writer.specs.Ranges.{InRange};

/// The bytes that are written for a class spell that class (JVMS 4), and reading them as a class
/// file gives it back.
pub fn written_is_spelled()
    ensures spelled { (c : ClassParts) (bytes : List ℕ) → InRange c → Fits c → written c ≡ Ok bytes → Spells bytes c }
    ensures read_back { (c : ClassParts) (bytes : List ℕ) → InRange c → Fits c → written c ≡ Ok bytes → class_file.read bytes ≡ Ok c }
{}

/// Each target in a class's code is an instruction of it (JVMS 4.9.1), so that `13 BadTarget` never
/// comes of a class; and each number in its tables has an offset.
pub fn class_targets_are_found()
    ensures targets { (slots : ℕ) (c : Code) (before after : DraftParts) (all : List IndexedInstr) → code_fits slots c ≡ true → each_of instr_indexed c.instructions before ≡ Ok (all, after) → ¬ (encoded all ≡ Err BadTarget) }
    ensures places { (slots : ℕ) (c : Code) (before after : DraftParts) (e : EncodedCode) → code_fits slots c ≡ true → code_encoded c.instructions before ≡ Ok (e, after) → PlacesFound e c }
{}

/// Four bytes can say the length of each attribute that is written (JVMS 4.7), so that `36 TooMany`
/// never comes of a length: an attribute has no fault but that of what it holds.
pub fn attribute_lengths_fit()
    ensures constant_value { (value : Constant) (d : DraftParts) → LengthFits (put_constant value) d }
    ensures code { (c : Code) (d : DraftParts) → LengthFits (put_code_body c) d }
    ensures line_numbers { (code : EncodedCode) (lines : List LineNumber) (d : DraftParts) → LengthFits (put_lines code lines) d }
    ensures source_file { (units : List ℕ) (d : DraftParts) → LengthFits (put_name units) d }
{}

/// A class whose counts and texts two bytes can say (JVMS 4.4.7, 4.11) is never refused by
/// `36 TooMany`.
pub fn too_many_is_past_a_limit()
    ensures { (c : ClassParts) → WithinLimits c → Fits c → ¬ (written c ≡ Err TooMany) }
{}
