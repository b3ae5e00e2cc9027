// The lines of a worksheet that look at a run of prints and leave it: walk and ends side by side, and its turning
// points.
#![tactic(auto)]

mod comparing;
mod turning;

pub use comparing::compare;
pub use turning::turns;
