//! Steps of the threads of a linked program, over any heap.
//!
//! [`step_thread`] makes one step of a thread: a stage of unwinding where an exception is pending
//! (JVMS 2.10), else the instruction at which its top frame stands (JVMS 6.5), or a stage of the
//! initialization of a class (JVMS 5.5). Beside every world that the state matched, the state then
//! matches the world that the model's step leads to, stops for the model's reason, blocks where the
//! model blocks, or has not changed where a growth was refused. [`unwind_stage`] and [`init_stage`]
//! make the first and the last of these by themselves.
//!
//! `at` says where a step is made, and `specs/At` what it does: the words of all contracts. The files
//! are named as the model's (`jm_world`): `stepping` chooses what is to be done, and `families` among instructions of one kind; `plain`, `constants`,
//! `object_ops`, over `arrays` and `fields`, `instances`, `static_fields`, `type_checks`, `invocation`, `selections`,
//! `special_calls`, `returns` and `built_in_methods` are the instructions, with the text of Strings in
//! `strings`, over `characters`, and what variables keep of values in `narrowing`. Of an invoke, `receivers` tests the
//! receiver and the arguments, `declared` finds methods by their numbers, and `calls`, `instance_calls`,
//! `codeless_calls` and `string_methods` do what is called: a method with code, an abstract one or one of
//! a built-in class;
//! `athrow`, `throwing`, `handlers`, `unwinding` and `ending` are what exceptions and ends do, with the class
//! of an object in `object_kind`, `readiness` what classes ask for
//! before they are used, `initialization` the stages of a class, with its `superclass`, its `initializers` and its
//! `constant_values`, over the calls on
//! one thread in `top_frame`, `top_object`, `frames` and `print_operands`. A plain instruction looks up
//! its thread, its top frame and its code, and takes no memory; [`run_plain`] looks these up once for
//! as many as stand in a row (`plain_runs`), of which `jm_superinstructions` makes a few at once, makes with them those
//! that touch one object (`object_runs`), also behind loads (`loaded_rows`), and between them those that touch one
//! static field, literal or class (`object_rows`). What touches a frame and one object is one function (`object_ops`) for
//! events and for runs, which know no row (`object_steps`). [`run_thread`] goes on so in the methods that are called (`call_rows`)
//! and returned to (`return_rows`): the loop of both is in `method_runs`. The crate stands on `jm_state`, `jm_linked`, `jm_tables`, `jm_ops`,
//! `jm_superinstructions` and `jm_heap`'s trait.
#![tactic(auto)]

mod arrays;
mod arrays_of_arrays;
mod at;
mod athrow;
mod built_in_methods;
mod call_rows;
mod calls;
mod characters;
mod class_number;
mod codeless_calls;
mod constant_values;
mod constants;
mod declared;
mod ending;
mod families;
mod fields;
mod frames;
mod handlers;
mod initialization;
mod initializers;
mod instance_calls;
mod instances;
mod invocation;
mod loaded_rows;
mod method_runs;
mod monitors;
mod narrowing;
mod object_kind;
mod object_ops;
mod object_rows;
mod object_runs;
mod object_steps;
mod plain;
mod plain_runs;
mod print_operands;
mod readiness;
mod receivers;
mod return_rows;
mod returns;
mod selections;
mod special_calls;
mod stages;
mod static_fields;
mod stepping;
mod string_methods;
mod string_rows;
mod strings;
mod superclass;
mod text;
mod thread_entry;
mod thread_runs;
mod thread_starts;
mod throwing;
mod top_frame;
mod top_object;
mod type_checks;
mod unwinding;

pub use method_runs::run_plain;
pub use stages::{init_stage, unwind_stage};
pub use stepping::step_thread;
pub use thread_runs::{Run, run_thread};
