// Printed lines from forms: a form is text in which '%' and a letter stand for a piece made of the next values.
#![tactic(auto)]

ghost use Rattle.std.specs.Prelude.{◌+◌, ◌*◌, ◌^◌, ◌≤◌, ◌<◌, length};
ghost use Rattle.text_buffer.specs.Writing.{Put};
ghost use Rattle.text_forms.specs.Forms.{form_of};

use text_buffer::put_byte;
use text_letters::{put_piece, takes};

// Puts what a form makes of values from a place on.
pub fn put_form(buf: &mut [u8], at: usize, form: &[u8], values: &[u64]) -> usize
    requires at_in_bounds { at ≤ length buf.old }
    requires form_len_bound { length form.now < 2 ^ 32 }
    ensures put { Put buf.old at (form_of form.now values.now) buf.new result }
    ensures upper_bound { result ≤ at + 50 * length form.now }
{
    let mut v: usize = 0;
    let mut next = at;
    let mut marked = false;
    for b in form {
        if marked {
            next = put_piece(buf, next, *b, values, v);
            v += takes(*b);
            marked = false;
        } else if *b == b'%' {
            marked = true;
        } else {
            put_byte(buf, next, *b);
            next += 1;
        }
    }
    next
}
