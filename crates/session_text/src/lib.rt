// The text of test sessions: the names of lines, the numbers of a line, words printed, what a call did to the store, and
// what is lent at most.
#![tactic(auto)]

pub mod lent;
pub mod names;
pub mod numbers;
pub mod printing;
pub mod shown;
