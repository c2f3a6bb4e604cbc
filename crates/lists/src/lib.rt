// Lists, and the rows of compounds: insertion, removal, membership, and rows made of values or of a range of numbers.
// Promise: each operation is equal to its definition, and keeps "is a value of this type" whenever the size allows.
// The hard idea: the one search gives the place for insertion, removal and membership; where the caller keeps its row, a new one
// is made of clones of what is before the place and after it, which share what is inside.
#![tactic(auto)]

mod edits;
mod ranges;
mod rows;
mod sought;

pub use edits::{contains, countable, insert, insert_into, remove};
pub use ranges::{RangeFault, range};
pub use rows::{collect, field, in_order, joined};
