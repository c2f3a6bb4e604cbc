// Displays of values, read back.
// Promise: the reader inverts the writer: it answers the value that is meant by the display, or tells a wrong form with its
// byte, then a limit that is passed, then one key of a table with two associates, in this order.
// The hard idea: rows are read by a loop and gathered in order as they are read, in bounded memory; a display has one reading.
#![tactic(auto)]

mod display;
mod fault;
mod gather;
mod next;
mod read;

pub use display::read_display;
pub use fault::DisplayFault;
