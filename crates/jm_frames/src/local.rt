// A local variable.

ghost use Rattle.std.specs.Prelude.{◌≡◌, Some, None};
ghost use Rattle.jm_frames.specs.Locals.{kept_of};

use jm_values::{Place, Value};
use std::marker::Model;

// What a local variable keeps: a value, in one tag with that it may not be set.
#[derive(Clone, Copy)]
enum Kept {
    Unset,
    Int(i32),
    Long(i64),
    Null,
    Reference(Place),
}

/// A local variable of a frame (JVMS 2.6.1), in 16 bytes: a value, or that it is not set.
#[derive(Drop)]
pub struct Local {
    kept: Kept,
}

impl Model for Local {
    ghost use Rattle.std.specs.Prelude.{Option};
    ghost use Rattle.jm_values.specs.declared.value.Value.{Value as ModelValue};
    ghost use Rattle.jm_frames.specs.Locals.{kept_of};

    ghost Value = { Option ModelValue };

    ghost view = { λ l. kept_of l.kept };
}

#[inline(always)]
fn keep(value: Value) -> Kept
    ensures { kept_of result ≡ Some value }
{
    match value {
        Value::Int(number) => Kept::Int(number),
        Value::Long(number) => Kept::Long(number),
        Value::Null => Kept::Null,
        Value::Ref(place) => Kept::Reference(place),
    }
}

impl Local {
    /// A local variable that is not set.
    #[inline(always)]
    pub fn unset() -> Local
        ensures { result ≡ None }
    {
        Local { kept: Kept::Unset }
    }

    /// A local variable with this value, or one that is not set.
    #[inline(always)]
    pub fn of(value: Option<Value>) -> Local
        ensures { result ≡ value }
    {
        match value {
            Some(value) => Local { kept: keep(value) },
            None => Local::unset(),
        }
    }

    /// Its value. `None`: it is not set.
    #[inline(always)]
    pub fn value(&self) -> Option<Value>
        ensures { result ≡ self.now }
    {
        match self.kept {
            Kept::Unset => None,
            Kept::Int(number) => Some(Value::Int(number)),
            Kept::Long(number) => Some(Value::Long(number)),
            Kept::Null => Some(Value::Null),
            Kept::Reference(place) => Some(Value::Ref(place)),
        }
    }
}
