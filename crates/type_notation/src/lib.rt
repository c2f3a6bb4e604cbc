// Types as they are written, read with faults.
// Promise: the reader inverts the writer, as for the other words; a type is checked without building it.
// The hard idea: a type is written in prefix notation, so that a count of the types still due decides what may follow.
#![tactic(auto)]

mod build;
mod check;
mod shape;

pub use build::build_type;
pub use check::check_type;
