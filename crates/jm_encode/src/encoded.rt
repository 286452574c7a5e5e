// The code of a method in bytes.

use jm_program::Sequence;

/// The bytes of a code, and the offset at which each of its instructions begins, in their order
/// (JVMS 4.7.3).
pub struct EncodedCode {
    pub bytes: Sequence<u8>,
    pub starts: Sequence<u16>,
}

// Written out, so that whoever lets go of one makes a call (docs/DECISIONS.md).
impl Drop for EncodedCode {
    fn drop(self) {
        let EncodedCode {
            bytes: _,
            starts: _,
        } = self;
    }
}
