// Access flags and their words (Jasmin User Guide, "Jasmin Assembler Directives"; JVMS 4.1, 4.5,
// 4.6).

ghost use Rattle.std.specs.Prelude.{◌≡◌, ◌++◌, ◌∷◌, ◌==◌, [], OnOk, ℕ, bit_and, bit_or, if◌then◌else◌};
ghost use Rattle.std.specs.List.{flat_map};
ghost use Rattle.jm_disassembler.specs.Flags.{class_flags_said, class_note, class_rows, flags_said, flags_text, interface_rows, member_note, member_rows, wordless_rows, wordless_text};

use jm_program::AccessFlags;
use std::alloc::AllocError;

// The bits with those of a flag, where it is set among others.
fn with_flag(all: u16, bits: u16, mask: u16) -> u16
    ensures { result ≡ (if bit_and bits mask == mask then bit_or all mask else all) }
{
    if bits & mask == mask { all | mask } else { all }
}

// Writes the word of a flag and a blank, where the flag is set.
fn write_flag(out: &mut String, bits: u16, mask: u16, word: &str) -> Result<(), AllocError>
    ensures { OnOk result (out.new.bytes.items ≡ out.old.bytes.items ++ (if bit_and bits mask == mask then word.now ++ 32 ∷ [] else [])) }
{
    if bits & mask == mask {
        out.push_str(word)?;
        out.push_str(" ")?;
    }
    Ok(())
}

/// Whether the words of a class's flags say them all: of a class beside ACC_SUPER, of an interface
/// beside ACC_INTERFACE and ACC_ABSTRACT.
pub fn class_flags_said(flags: AccessFlags) -> bool
    ensures { result ≡ class_flags_said flags }
{
    let bits = flags.bits;
    let is_interface = flags.has(AccessFlags::INTERFACE);
    let all = if is_interface { 0x0600 } else { 0x0020 };
    let all = with_flag(all, bits, 0x0001);
    let all = with_flag(all, bits, 0x0002);
    let all = with_flag(all, bits, 0x0004);
    let all = with_flag(all, bits, 0x0008);
    let all = with_flag(all, bits, 0x0010);
    if is_interface {
        let all = with_flag(all, bits, 0x0020);
        let all = with_flag(all, bits, 0x0040);
        let all = with_flag(all, bits, 0x0080);
        all == bits
    } else {
        let all = with_flag(all, bits, 0x0040);
        let all = with_flag(all, bits, 0x0080);
        let all = with_flag(all, bits, 0x0400);
        all == bits
    }
}

/// Whether the words of a field or a method say all of the flags.
pub fn member_flags_said(bits: u16) -> bool
    ensures { result ≡ flags_said 0 bits member_rows }
{
    let all = with_flag(0, bits, 0x0001);
    let all = with_flag(all, bits, 0x0002);
    let all = with_flag(all, bits, 0x0004);
    let all = with_flag(all, bits, 0x0008);
    let all = with_flag(all, bits, 0x0010);
    let all = with_flag(all, bits, 0x0020);
    let all = with_flag(all, bits, 0x0040);
    let all = with_flag(all, bits, 0x0080);
    let all = with_flag(all, bits, 0x0400);
    all == bits
}

/// Writes the words of the flags of a class beside ACC_SUPER. After an error some of them may stand there.
pub fn write_class_flags(out: &mut String, bits: u16) -> Result<(), AllocError>
    ensures { OnOk result (out.new.bytes.items ≡ out.old.bytes.items ++ flags_text bits class_rows) }
{
    write_flag(out, bits, 0x0001, "public")?;
    write_flag(out, bits, 0x0002, "private")?;
    write_flag(out, bits, 0x0004, "protected")?;
    write_flag(out, bits, 0x0008, "static")?;
    write_flag(out, bits, 0x0010, "final")?;
    write_flag(out, bits, 0x0040, "volatile")?;
    write_flag(out, bits, 0x0080, "transient")?;
    write_flag(out, bits, 0x0400, "abstract")?;
    Ok(())
}

/// Writes the words of the flags of an interface beside ACC_INTERFACE and ACC_ABSTRACT. After an error some of them may stand there.
pub fn write_interface_flags(out: &mut String, bits: u16) -> Result<(), AllocError>
    ensures { OnOk result (out.new.bytes.items ≡ out.old.bytes.items ++ flags_text bits interface_rows) }
{
    write_flag(out, bits, 0x0001, "public")?;
    write_flag(out, bits, 0x0002, "private")?;
    write_flag(out, bits, 0x0004, "protected")?;
    write_flag(out, bits, 0x0008, "static")?;
    write_flag(out, bits, 0x0010, "final")?;
    write_flag(out, bits, 0x0020, "synchronized")?;
    write_flag(out, bits, 0x0040, "volatile")?;
    write_flag(out, bits, 0x0080, "transient")?;
    Ok(())
}

/// Writes the words of the flags of a field or a method. After an error some of them may stand there.
pub fn write_member_flags(out: &mut String, bits: u16) -> Result<(), AllocError>
    ensures { OnOk result (out.new.bytes.items ≡ out.old.bytes.items ++ flags_text bits member_rows) }
{
    write_flag(out, bits, 0x0001, "public")?;
    write_flag(out, bits, 0x0002, "private")?;
    write_flag(out, bits, 0x0004, "protected")?;
    write_flag(out, bits, 0x0008, "static")?;
    write_flag(out, bits, 0x0010, "final")?;
    write_flag(out, bits, 0x0020, "synchronized")?;
    write_flag(out, bits, 0x0040, "volatile")?;
    write_flag(out, bits, 0x0080, "transient")?;
    write_flag(out, bits, 0x0400, "abstract")?;
    Ok(())
}

// ---- comments

// Writes a blank and the word of a flag, where the flag is set.
fn write_wordless_flag(out: &mut String, bits: u16, mask: u16, word: &str) -> Result<(), AllocError>
    ensures { OnOk result (out.new.bytes.items ≡ out.old.bytes.items ++ (if bit_and bits mask == mask then 32 ∷ word.now else [])) }
{
    if bits & mask == mask {
        out.push_str(" ")?;
        out.push_str(word)?;
    }
    Ok(())
}

// Writes the words of the flags that have none in a text.
fn write_wordless_flags(out: &mut String, bits: u16) -> Result<(), AllocError>
    ensures { OnOk result (out.new.bytes.items ≡ out.old.bytes.items ++ flat_map (wordless_text bits) wordless_rows) }
{
    write_wordless_flag(out, bits, 0x0100, "native")?;
    write_wordless_flag(out, bits, 0x0800, "strict")?;
    write_wordless_flag(out, bits, 0x1000, "synthetic")?;
    write_wordless_flag(out, bits, 0x2000, "annotation")?;
    write_wordless_flag(out, bits, 0x4000, "enum")?;
    write_wordless_flag(out, bits, 0x8000, "mandated")?;
    Ok(())
}

/// Writes the end of the line of a class, and before it, where comments are wanted, the flags that
/// no word says. After an error some of it may stand there.
pub fn write_class_note(
    out: &mut String,
    commented: bool,
    flags: AccessFlags,
) -> Result<(), AllocError>
    ensures { OnOk result (out.new.bytes.items ≡ out.old.bytes.items ++ class_note commented flags) }
{
    if !commented || class_flags_said(flags) {
        return out.push_str("\n");
    }
    out.push_str("  ;")?;
    if flags.has(AccessFlags::INTERFACE) {
        if flags.bits & 0x0400 != 0x0400 {
            out.push_str(" not abstract")?;
        }
    } else if flags.bits & 0x0020 != 0x0020 {
        out.push_str(" not super")?;
    }
    write_wordless_flags(out, flags.bits)?;
    out.push_str("\n")
}

/// Writes the end of the line of a field or a method, and before it, where comments are wanted, the
/// flags that no word says. After an error some of it may stand there.
pub fn write_member_note(out: &mut String, commented: bool, bits: u16) -> Result<(), AllocError>
    ensures { OnOk result (out.new.bytes.items ≡ out.old.bytes.items ++ member_note commented bits) }
{
    if !commented || member_flags_said(bits) {
        return out.push_str("\n");
    }
    out.push_str("  ;")?;
    write_wordless_flag(out, bits, 0x0200, "interface")?;
    write_wordless_flags(out, bits)?;
    out.push_str("\n")
}
