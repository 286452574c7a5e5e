//! What a run of a linked program has made: threads, statics, states of classes, output and stop,
//! beside a heap.
//!
//! A [`State`] holds references as places of its heap and names as numbers of a linked program;
//! `specs/Parts` says which parts of a machine it stands for, so that it can be laid beside a world
//! (`jm_world`'s `Matches`), and `specs/Ends` what comes of a step. The places that a state holds
//! are gathered before a collection and written back after it, once for all who make objects.
//!
//! The arguments of a call are tested among the operands of the caller, and handed to the frame of the
//! method that is called (JVMS 2.6.1, 6.5 invokevirtual): [`test_arguments`] says whether the operands on
//! top are of the parameters' types, and leaves them, and [`test_parameters`] the same of the parameters
//! of a descriptor; [`arguments_on`] gives them in their order; [`called_frame`] makes the frame in which
//! a method begins with them as its first local variables, and [`called_frame_in`] in memory of one that
//! ended.
//!
//! The crate stands on `jm_linked`, `jm_frames`, `jm_heap` and `jm_world`.
#![tactic(auto)]

mod arguments;
mod halt;
mod laws;
mod make;
mod parameters;
mod places;
mod reach;
mod state;
mod thread;

pub use arguments::{Callee, arguments_on, called_frame, called_frame_in, test_arguments};
pub use halt::{Halt, StepEnd};
pub use laws::arguments_are_popped;
pub use make::{collect, make_arrays, make_object};
pub use parameters::test_parameters;
pub use places::{gather, put_back};
pub use reach::{find_reachable, reachable};
pub use state::State;
pub use thread::{Ending, StackFrame, Thread};
