// The lines of a worksheet that ask what the ends of a run would do, and commit it: what was asked is kept on the desk, and
// read back before it is done.
#![tactic(auto)]

mod asking;
mod committing;
mod reading;

pub use asking::ask;
pub use committing::commit;
