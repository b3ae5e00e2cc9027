// The lines of a worksheet that set something, and those on one stop: each calls the library for hosts and says what it
// did.
#![tactic(auto)]

mod changing;
mod setting;

pub use changing::{admit, cancel, change};
pub use setting::{clear, collar, kill, last, namespace, store};
