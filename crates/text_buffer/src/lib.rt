// Text written into a lent buffer. A writer writes what there is room for and answers the place behind the whole text: past the buffer's end, it had no room, and
// the caller empties the buffer and writes again.
#![tactic(auto)]

mod decimal;
mod text;

pub use decimal::{put_decimal, put_digits, put_in_base};
pub use text::{put_byte, put_text};
