// The words of the notation: names, numbers and texts, read with faults.
// Promise: a reader inverts the writer: it answers the one word that is written so, refuses for syntax exactly when none is,
// with the byte where the longest beginning that some right form shares ends, and refuses for a limit only after that.
// The hard idea: one theorem of unique readability for each kind of word.
#![tactic(auto)]

mod names;
mod numbers;
mod texts;

pub use names::check_name;
pub use numbers::{number_at, read_number};
pub use texts::{check_text, text_at, unquote};
