// The lines of a worksheet that evaluate a run of prints: step by step, by its ends, and as a pass with a script for the
// children.
#![tactic(auto)]

mod passes;
mod stepping;
mod telling;

pub use passes::{child, pass};
pub use stepping::{ends, walk};
