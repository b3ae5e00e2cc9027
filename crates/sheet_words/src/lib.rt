// Arguments that are words of the language, or numbers in their place.
#![tactic(auto)]

mod child_words;
mod words;

pub use child_words::child_at;
pub use words::{either_at, optional_at};
