// How far the initialization of each of a program's classes is.

ghost use Rattle.std.specs.Prelude.{◌≡◌, ◌<◌, IfOk, Some, length, replicate, slice_get, slice_set};
ghost use Rattle.jm_world.specs.declared.class_state.ClassState.TheVariants.{NotBegun, InProgress, Done, Failed};

use jm_world::ClassState;
use std::alloc::{AllocError, Global};
use std::marker::Model;

/// How far the initialization of each of a program's classes is (JVMS 5.5), by the class's number
/// among them, from 0.
pub struct InitStates {
    states: Vec<ClassState>,
}

// Written out, so that whoever lets go of one makes a call (docs/DECISIONS.md).
impl Drop for InitStates {
    fn drop(self) {
        let InitStates { states: _ } = self;
    }
}

impl Model for InitStates {
    ghost use Rattle.std.specs.Prelude.{List};
    ghost use Rattle.jm_world.specs.declared.class_state.ClassState.{ClassState};

    ghost Value = { List ClassState };

    ghost view = { λ s. s.states.items };
}

impl InitStates {
    /// Of so many classes, none of which is begun. `AllocError`: there was no memory for them.
    pub fn new(alloc: Global, count: usize) -> Result<InitStates, AllocError>
        ensures { IfOk result (λ states. states ≡ replicate count NotBegun) }
    {
        let states = vec![in alloc; ClassState::NotBegun; count]?;
        Ok(InitStates { states })
    }

    /// How many classes there are.
    #[inline]
    pub fn len(&self) -> usize
        ensures { result ≡ length self.now }
    {
        self.states.len()
    }

    /// How far the initialization of a class is.
    #[inline]
    pub fn get(&self, class: u32) -> ClassState
        requires { class < length self.now }
        ensures { slice_get self.now class ≡ Some result }
    {
        self.states[class as usize]
    }

    /// The initialization of a class is in progress by the thread of this number (JVMS 5.5).
    #[inline]
    pub fn begin(&mut self, class: u32, thread: u64)
        requires { class < length self.old }
        ensures { self.new ≡ slice_set self.old class (InProgress thread) }
    {
        self.states[class as usize] = ClassState::InProgress(thread);
    }

    /// A class is initialized (JVMS 5.5).
    #[inline]
    pub fn finish(&mut self, class: u32)
        requires { class < length self.old }
        ensures { self.new ≡ slice_set self.old class Done }
    {
        self.states[class as usize] = ClassState::Done;
    }

    /// The initialization of a class ended by an exception (JVMS 5.5).
    #[inline]
    pub fn fail(&mut self, class: u32)
        requires { class < length self.old }
        ensures { self.new ≡ slice_set self.old class Failed }
    {
        self.states[class as usize] = ClassState::Failed;
    }
}
