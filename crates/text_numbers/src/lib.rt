// Decimal numbers of a line's words, and what a word gives.
#![tactic(auto)]

mod numbers;
mod runs;
mod steps;

pub use numbers::{number_at, number_between};
pub use runs::{count_at, put_number, put_numbers};
pub use steps::{bad, got};

// Why a text is no number.
#[derive(Clone, Copy)]
enum Unread {
    NotNumber,
    TooLarge,
}

// What an argument gave: a fault and its column, or 0 and so many values, the first of five; and the place behind the argument.
// A struct and no Result: behind a fault there is a place too, and a run of numbers (`count_from`) goes on from it.
#[derive(Clone, Copy)]
pub struct Step {
    pub fault: u64,
    pub column: usize,
    pub next: usize,
    pub size: u64,
    pub a: u64,
    pub b: u64,
    pub c: u64,
    pub d: u64,
    pub e: u64,
}
