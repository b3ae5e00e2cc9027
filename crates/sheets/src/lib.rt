// A worksheet: lines of text in, and what each of them did out, as text, as a table or as a picture. A line that is
// refused says so and alters nothing; one that cannot be read ends the sheet. The last line is `done` or
// `stopped at line N`.
#![tactic(auto)]

mod kinds;
mod reading;
mod running;

pub use reading::{MOST_TEXT, not_read, sheet};
