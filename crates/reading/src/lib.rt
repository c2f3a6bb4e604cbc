// Reading a text: its bytes and marks, a word that was read, and why a text is refused.
// Promise: what stands at a place of a text is told exactly. The definitions say for any kind of word what a reader answers:
// the one word that is written so, or what is wrong, with the byte where the longest right beginning ends.
// The hard idea: a word is read with whatever follows it, so that words read inside others need no second statement.
#![tactic(auto)]

mod bytes;
mod fault;
mod word;

pub use bytes::{begins, byte_at, expect};
pub use fault::Fault;
pub use word::Word;
