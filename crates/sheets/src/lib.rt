// Sheets: texts of declared targets, a line each: name, tab, type, tab, and the display of the content or nothing.
// Promise: the lines up to the first empty one are declared and filled in turn, and the targets are written in order of name,
// with their contents in order; or the first line that is wrong is denied, by the first of its faults.
// The hard idea: the definition of a line says what each denial means, and that no earlier check of the line failed.
#![tactic(auto)]

mod fault;
mod fields;
mod keep;
mod names;
mod sheet;
mod target;
mod write;

pub use fault::SheetFault;
pub use sheet::{INPUT_LIMIT, settle};
