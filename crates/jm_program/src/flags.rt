// Access flags.

ghost use Rattle.std.specs.Prelude.{◌≡◌};

/// The access flags of a class, a field or a method (JVMS 4.1, 4.5, 4.6). Flags that nothing
/// here names, as synthetic or varargs, are kept and mean nothing.
#[derive(Clone, Copy, PartialEq, Eq)]
pub struct AccessFlags {
    /// The u2 of a class file.
    pub bits: u16,
}

impl AccessFlags {
    ghost use Rattle.jm_program.specs.Flags.{has};

    pub const PUBLIC: u16 = 0x0001;

    pub const PRIVATE: u16 = 0x0002;

    pub const PROTECTED: u16 = 0x0004;

    pub const STATIC: u16 = 0x0008;

    pub const FINAL: u16 = 0x0010;
    /// Of a method.
    pub const SYNCHRONIZED: u16 = 0x0020;
    /// Of a class.
    pub const SUPER: u16 = 0x0020;
    /// Of a field.
    pub const VOLATILE: u16 = 0x0040;
    /// Of a field.
    pub const TRANSIENT: u16 = 0x0080;
    /// Of a method.
    pub const NATIVE: u16 = 0x0100;
    /// Of a class.
    pub const INTERFACE: u16 = 0x0200;

    pub const ABSTRACT: u16 = 0x0400;

    /// Whether all bits of the mask are set.
    pub fn has(self, mask: u16) -> bool
        ensures { result ≡ has mask self }
    {
        self.bits & mask == mask
    }
}
