// Sequences: what texts, lists and tables have in common. Their items are characters, entries and associates.
// Promise: the count of a value's items, and its items in turn, each of the type of the value's items.
// The hard idea: the items share the value, so that what is left of them stays as it is whatever becomes of it.
#![tactic(auto)]

mod counts;
mod items;

pub use counts::count;
pub use items::Items;
