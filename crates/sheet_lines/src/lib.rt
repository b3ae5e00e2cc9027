// The table of printed lines: a line is a row of the table, a form, with a line feed behind it.
#![tactic(auto)]

pub mod names;
mod rows;

ghost use Rattle.std.specs.Prelude.{◌≤◌, length};
ghost use Rattle.text_buffer.specs.Writing.{Put};
ghost use Rattle.sheet_lines.specs.Lines.{line_of};

use rows::put_row;
use text_buffer::put_byte;

// Puts the line of a row and values from a place on.
pub fn put_line(buf: &mut [u8], at: usize, k: u64, values: &[u64]) -> usize
    requires { at ≤ length buf.old }
    ensures { Put buf.old at (line_of k values.now) buf.new result }
{
    let next = put_row(buf, at, k, values);
    put_byte(buf, next, b'\n');
    next + 1
}
