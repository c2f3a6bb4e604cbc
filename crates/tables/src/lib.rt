// Tables: the associate of a key, entries put in and taken out, the keys.
// Promise: each operation is equal to its definition, and keeps "is a value of this type" whenever the size allows.
// The hard idea: every operation leaves the entries before one place as they are, and changes only what begins there; so one
// search gives the place, and one lemma says what was done there.
#![tactic(auto)]

mod edits;
mod reads;
mod sought;

pub use edits::{add, add_to, delete, put};
pub use reads::{keys, select};
