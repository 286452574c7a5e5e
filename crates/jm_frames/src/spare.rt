// The memory of frames that ended.

ghost use Rattle.std.specs.Prelude.{◌≡◌, ◌+◌, ◌-◌, ◌≤◌, ◌++◌, [], None, IfOk, IfSome, OnOk, length, replicate, vec_capacity, vec_len};
ghost use Rattle.jm_values.specs.Activation.{category};
ghost use Rattle.jm_frames.specs.Called.{argument_locals, locals_of};

use crate::local::Local;
use jm_values::Value;
use std::alloc::{AllocError, Global};

// The memory of one frame: of its local variables and of its operands.
#[derive(Drop)]
pub(crate) struct Memory {
    pub(crate) locals: Vec<Local>,
    pub(crate) stack: Vec<Value>,
}

/// The memory of frames that ended, for those that begin. It holds no value.
#[derive(Drop)]
pub struct Spare {
    alloc: Global,
    // none where none was ever kept: to let go of that costs nothing
    memories: Option<Vec<Memory>>,
}

// Puts an argument behind local variables, for which there is room: a long takes two.
#[inline(always)]
fn put_argument(locals: &mut Vec<Local>, argument: &Value)
    requires { vec_len locals.old + category argument.now ≤ vec_capacity locals.old }
    ensures items { locals.new.items ≡ locals.old.items ++ argument_locals argument.now }
    ensures room { vec_capacity locals.new ≡ vec_capacity locals.old }
{
    locals.push_reserved(Local::of(Some(*argument)));
    if let Value::Long(_) = *argument {
        locals.push_reserved(Local::unset());
    }
}

// Puts arguments into local variables, for which there is room.
#[inline(always)]
pub(crate) fn put_arguments(locals: &mut Vec<Local>, arguments: &[Value])
    requires { vec_len locals.old + length (locals_of arguments.now) ≤ vec_capacity locals.old }
    ensures items { locals.new.items ≡ locals.old.items ++ locals_of arguments.now }
    ensures room { vec_capacity locals.new ≡ vec_capacity locals.old }
{
    for argument in arguments {
        put_argument(locals, argument);
    }
}

// Puts local variables that are not set behind others, for which there is room, until there are so many.
#[inline(always)]
pub(crate) fn unset_rest(locals: &mut Vec<Local>, count: usize)
    requires room { count ≤ vec_capacity locals.old }
    requires fewer { vec_len locals.old ≤ count }
    ensures { locals.new.items ≡ locals.old.items ++ replicate (count - length locals.old.items) None }
{
    for _unset in locals.len()..count {
        locals.push_reserved(Local::unset());
    }
}

// Makes so many local variables that are not set.
#[inline(always)]
fn unset(locals: &mut Vec<Local>, count: usize) -> Result<(), AllocError>
    ensures { OnOk result (locals.new.items ≡ replicate count None) }
{
    locals.clear();
    locals.reserve(count)?;
    for _unset in 0..count {
        locals.push_reserved(Local::unset());
    }
    Ok(())
}

// Keeps memory behind other; where there is no room to note it, it is given back.
#[inline(always)]
fn keep_last(memories: &mut Vec<Memory>, memory: Memory) {
    if memories.len() < memories.capacity() {
        memories.push_reserved(memory);
    } else {
        let _kept = memories.push(memory);
    }
}

impl Spare {
    /// No memory.
    #[inline]
    pub fn new(alloc: Global) -> Spare {
        Spare {
            alloc,
            memories: None,
        }
    }

    // The memory that was kept last, if there is one.
    #[inline(always)]
    fn last(&mut self) -> Option<Memory> {
        match &mut self.memories {
            Some(memories) => memories.pop(),
            None => None,
        }
    }

    // The same, or new memory.
    #[inline(always)]
    fn pop(&mut self) -> Memory {
        match self.last() {
            Some(memory) => memory,
            None => Memory {
                locals: Vec::new(self.alloc),
                stack: Vec::new(self.alloc),
            },
        }
    }

    // The memory that was kept last, where it has room for so many operands and local variables; it holds none.
    #[inline(always)]
    pub(crate) fn take_reserved(&mut self, operands: usize, locals: usize) -> Option<Memory>
        ensures locals { IfSome result (λ memory. (memory.locals.items ≡ []) × (locals ≤ vec_capacity memory.locals)) }
        ensures operands { IfSome result (λ memory. (memory.stack.items ≡ []) × (operands ≤ vec_capacity memory.stack)) }
    {
        let mut memory = self.last()?;
        if memory.locals.capacity() < locals || memory.stack.capacity() < operands {
            self.put(memory);
            return None;
        }
        memory.locals.clear();
        memory.stack.clear();
        Some(memory)
    }

    // Takes memory with so many local variables, which are not set, and room for so many operands.
    #[inline(always)]
    pub(crate) fn take(&mut self, operands: usize, locals: usize) -> Result<Memory, AllocError>
        ensures locals { IfOk result (λ memory. memory.locals.items ≡ replicate locals None) }
        ensures operands { IfOk result (λ memory. (memory.stack.items ≡ []) × (operands ≤ vec_capacity memory.stack)) }
    {
        let mut memory = self.pop();
        unset(&mut memory.locals, locals)?;
        memory.stack.clear();
        memory.stack.reserve(operands)?;
        Ok(memory)
    }

    // Keeps memory; where there is no room to note it, it is given back.
    #[inline(always)]
    pub(crate) fn put(&mut self, memory: Memory) {
        match &mut self.memories {
            Some(memories) => keep_last(memories, memory),
            None => {
                let mut memories = Vec::new(self.alloc);
                keep_last(&mut memories, memory);
                self.memories = Some(memories);
            }
        }
    }
}
