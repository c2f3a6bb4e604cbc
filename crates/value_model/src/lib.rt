// Values as mathematics has them, with their order and their size. There is no code here.
// Promise: the order is total and transitive, and only the same values are equal in it.
// The hard idea: a value is spread into a list of integers, and its order is the lexicographic one of those.
#![tactic(auto)]
