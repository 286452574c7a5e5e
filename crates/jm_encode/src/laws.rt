// What the definitions promise of one another, each as a call that does nothing.

ghost use Rattle.std.specs.Prelude.{◌≡◌, ◌<◌, ◌≤◌, ℕ, List, length, map, slice_index, Some, Ok, ◌⊎◌, IsTrue, All};
ghost use Rattle.std.specs.List.{list_all};
ghost use Rattle.jm_program.specs.declared.instruction.plain.Simple.{Simple};
ghost use Rattle.jm_program.specs.declared.instruction.operation.OperandType.{OperandType};
ghost use Rattle.jm_program.specs.declared.instruction.operation.Branch.{Branch};
ghost use Rattle.jm_program.specs.declared.instruction.operation.ArrayKind.{ArrayKind};
ghost use Rattle.jm_program.specs.declared.instruction.operation.ArrayOp.TheVariants as array;
ghost use Rattle.jm_program.specs.declared.instruction.operation.PrimitiveType.{PrimitiveType};
ghost use Rattle.jm_program.specs.declared.instruction.operation.ReturnOp.{ReturnOp};
ghost use Rattle.jm_program.specs.declared.instruction.operation.MonitorOp.{MonitorOp};
ghost use Rattle.jm_program.specs.declared.instruction.operation.FieldOp.{FieldOp};
ghost use Rattle.jm_program.specs.declared.instruction.operation.TypeOp.{TypeOp};
ghost use Rattle.jm_class_format.specs.declared.opcode.Opcode.TheVariants as opcode;
ghost use Rattle.jm_class_format.specs.Opcodes.{opcode_at, type_opcode};
ghost use Rattle.jm_class_format.specs.Instructions.{element_at};
ghost use Rattle.jm_class_format.specs.declared.instruction.IndexedInstr.{IndexedInstr};
ghost use Rattle.jm_class_format.specs.declared.instruction.PlacedInstr.{PlacedInstr};
ghost use Rattle.jm_class_format.specs.Code.{code};
ghost use Rattle.jm_encode.specs.declared.encoded.EncodedCode.{EncodedCode};
ghost use Rattle.jm_encode.specs.OpcodeBytes.{simple_byte, load_byte, store_byte, branch_byte, array_load_byte, array_store_byte, element_code, return_byte, monitor_byte, field_byte, type_byte};
ghost use Rattle.jm_encode.specs.Encoding.{has_bytes, placed_from, starts_from, end_from, encoded};
ghost use Rattle.jm_encode.specs.Ranges.{InRange};

/// The byte of each opcode is the one at which the table has that opcode.
pub fn opcode_bytes_stand_for_opcodes()
    ensures simple { (s : Simple) → opcode_at (simple_byte s) ≡ Some (opcode.Simple s) }
    ensures load { (kind : OperandType) → opcode_at (load_byte kind) ≡ Some (opcode.Load kind) }
    ensures store { (kind : OperandType) → opcode_at (store_byte kind) ≡ Some (opcode.Store kind) }
    ensures branch { (b : Branch) → (opcode_at (branch_byte b) ≡ Some (opcode.Branch b)) ⊎ (opcode_at (branch_byte b) ≡ Some (opcode.BranchWide b)) }
    ensures array_load { (kind : ArrayKind) → opcode_at (array_load_byte kind) ≡ Some (opcode.Array (array.Load kind)) }
    ensures array_store { (kind : ArrayKind) → opcode_at (array_store_byte kind) ≡ Some (opcode.Array (array.Store kind)) }
    ensures element { (at : ℕ) (element : PrimitiveType) → element_at at (element_code element) ≡ Ok element }
    ensures returning { (op : ReturnOp) → opcode_at (return_byte op) ≡ Some (opcode.Return op) }
    ensures monitor { (op : MonitorOp) → opcode_at (monitor_byte op) ≡ Some (opcode.Monitor op) }
    ensures field { (op : FieldOp) → opcode_at (field_byte op) ≡ Some (opcode.Field op) }
    ensures of_type { (op : TypeOp) → opcode_at (type_byte op) ≡ Some (type_opcode op) }
{}

/// What is encoded is spelled: the bytes spell the instructions at their offsets.
pub fn encoded_is_spelled()
    ensures spelled { (instrs : List IndexedInstr) (e : EncodedCode) → 0 < length instrs → All InRange instrs → IsTrue (list_all has_bytes instrs) → encoded instrs ≡ Ok e → code.Spells e.bytes (placed_from 0 instrs) }
    ensures size { (instrs : List IndexedInstr) (e : EncodedCode) → encoded instrs ≡ Ok e → length e.bytes ≡ end_from 0 instrs }
    ensures starts { (instrs : List IndexedInstr) (e : EncodedCode) → encoded instrs ≡ Ok e → e.starts ≡ starts_from 0 instrs }
    ensures short { (instrs : List IndexedInstr) (e : EncodedCode) → encoded instrs ≡ Ok e → end_from 0 instrs ≤ 65535 }
{}

/// Each instruction begins behind the one before it and inside the code.
pub fn starts_rise()
    ensures count { (at : ℕ) (instrs : List IndexedInstr) → length (starts_from at instrs) ≡ length instrs }
    ensures rising { (instrs : List IndexedInstr) (i j : ℕ) → i < j → j < length instrs → slice_index (starts_from 0 instrs) i < slice_index (starts_from 0 instrs) j }
    ensures inside { (instrs : List IndexedInstr) (i : ℕ) → i < length instrs → slice_index (starts_from 0 instrs) i < end_from 0 instrs }
{}

/// The placed instructions are the instructions, each with its start.
pub fn placed_parts()
    ensures offsets { (at : ℕ) (instrs : List IndexedInstr) → map (λ (p : PlacedInstr). p.offset) (placed_from at instrs) ≡ starts_from at instrs }
    ensures instructions { (at : ℕ) (instrs : List IndexedInstr) → map (λ (p : PlacedInstr). p.instr) (placed_from at instrs) ≡ instrs }
{}
