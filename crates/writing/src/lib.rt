// Writing displays, into an area of bytes from a place on; and counting them.
// Promise: the display of every value, byte for byte; an area too short is left as it was; the display of a value of any
// type fits 4,096 bytes.
// The hard idea: one writer, over anything that takes bytes: an area takes the display, a count takes its length.
#![tactic(auto)]

mod displays;
mod sinks;
mod writer;

pub use displays::{display, display_length, write_display};
