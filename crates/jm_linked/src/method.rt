// Methods whose names are resolved.

use crate::code::LinkedCode;
use crate::kind::ValueKind;
use jm_program::Sequence;

/// A method with code.
pub struct LinkedMethod {
    /// The number of its class among the program's classes.
    pub class: u32,
    /// Its number among the methods of its class.
    pub member: u32,
    /// What its parameters hold, in their order.
    pub parameters: Sequence<ValueKind>,
    /// What it returns, or none for `V`.
    pub result: Option<ValueKind>,
    /// Whether a call of it enters a monitor (JVMS 2.11.10).
    pub is_synchronized: bool,
    pub max_stack: u16,
    pub max_locals: u16,
    pub code: LinkedCode,
    /// The exception table, in its order.
    pub handlers: Sequence<LinkedHandler>,
}

// Written out, so that whoever lets go of one makes a call (docs/DECISIONS.md).
impl Drop for LinkedMethod {
    fn drop(self) {
        let LinkedMethod {
            class: _,
            member: _,
            parameters: _,
            result: _,
            is_synchronized: _,
            max_stack: _,
            max_locals: _,
            code: _,
            handlers: _,
        } = self;
    }
}

/// What invokevirtual and invokeinterface find for an object (JVMS 6.5 invokevirtual).
#[derive(Clone, Copy)]
pub enum Selected {
    /// No method.
    Nothing,
    /// A method without code, an abstract one or a built-in class's, by its number among the methods of
    /// all classes.
    WithoutCode(u32),
    /// A method with code, by its number among those with code.
    Coded(u32),
}

/// The value of a constant (JVMS 4.7.2, 5.1).
#[derive(Clone, Copy)]
pub enum LinkedConstant {
    Int(i32),
    Long(i64),
    /// A string, by its number among the program's literals.
    Literal(u32),
}

/// A row of the exception table (JVMS 4.7.3). The range goes from `start`, included, to `end`,
/// excluded.
#[derive(Clone, Copy)]
pub struct LinkedHandler {
    pub start: u32,
    pub end: u32,
    /// The number of the handler's first instruction.
    pub target: u32,
    /// The number of the class that is caught among all classes, or none for every one.
    pub catch_type: Option<u32>,
}
