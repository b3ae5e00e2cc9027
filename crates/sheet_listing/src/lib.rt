// The stops of a worksheet listed, with totals and trial prices, and elected ones.
#![tactic(auto)]

mod elected;
mod lists;
mod trying;
mod words;

pub use elected::tell_elected;
pub use lists::{cancel_holder, collect_all, left, list, list_holder, totals};
pub use trying::ladder;
pub use words::{is_held, lined};
