// Operations on texts and numbers.
// Promise: each is equal to its definition on every input, tells exactly when there is no result, and keeps "is a value of
// this type" whenever the size allows.
// The hard idea: a quotient is rounded down by the law that it keeps with its modulus, and that law has one answer.
#![tactic(auto)]

pub mod numbers;
pub mod texts;
