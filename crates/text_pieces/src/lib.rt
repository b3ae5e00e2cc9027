// Pieces of printed lines put into a lent buffer: a side, a price or a limit that may be absent, a holder's name.
#![tactic(auto)]

mod choices;
mod holder;

pub use choices::{put_limit, put_price, put_side};
pub use holder::put_holder;
