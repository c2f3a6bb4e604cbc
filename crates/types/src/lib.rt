// Types of values, and whether a value is of a type.
// Promise: a value is of a type exactly when its numbers are within the bounds, its characters printable, its parts of their
// types, its lists in order, its tables in order of key with no key twice, and its size within the limit.
#![tactic(auto)]

mod admits;
mod copies;
mod show;
mod value_type;

pub use admits::BOUND;
pub use value_type::{Sides, ValueType};
