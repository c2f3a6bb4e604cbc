// Values: numbers, texts, compounds, lists and tables; their order and their size.
// Promise: one total order in which only the same values are equal; the size of every value; clones that share.
// The hard idea: rows are shared through `Rc`, so that a clone is one count up. Order, bounds and size are no part of the
// representation: they belong to "is a value of this type", which is in crate `types`.
#![tactic(auto)]

mod copies;
mod entry;
mod order;
mod sizes;
mod value;

pub use sizes::{HasSize, SIZE_LIMIT, size_of_row};
pub use value::{Entry, Value};
