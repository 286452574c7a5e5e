/// The argument slots of a method, its receiver included: at most so many (JVMS 4.3.3).
pub const MAX_ARGUMENT_SLOTS: usize = 255;

/// The dimensions of an array type: at most so many (JVMS 4.3.2).
pub const MAX_DIMENSIONS: usize = 255;

/// The code of a method, in bytes: at most so many, and at least one (JVMS 4.7.3).
pub const MAX_CODE_BYTES: usize = 65_535;

/// The oldest class file version that is read is 45.0 (JVMS 4.1).
pub const OLDEST_MAJOR: u16 = 45;

/// The newest class file version that is read is 52.0 (JVMS 4.1).
pub const NEWEST_MAJOR: u16 = 52;
