// Forms that are the lines of a text, each found by its place.
#![tactic(auto)]

ghost use Rattle.std.specs.Prelude.{◌+◌, ◌≤◌, length};
ghost use Rattle.text_buffer.specs.Writing.{Put};
ghost use Rattle.text_forms.specs.Forms.{form_of};
ghost use Rattle.text_parts.specs.Parts.{Begins, line_in};

use text_forms::put_form;

// Puts what the k-th line of a text makes of values from a place on. `starts` says where the lines begin.
#[tactic(auto, unfolding(crate::specs::Parts::line_in))]
pub fn put_part(
    buf: &mut [u8],
    at: usize,
    text: &[u8],
    starts: &[usize],
    k: usize,
    values: &[u64],
) -> usize
    requires at_in_bounds { at ≤ length buf.old }
    requires text_len_bound { length text.now ≤ 20000 }
    requires begins { Begins text.now starts.now k }
    ensures put { Put buf.old at (form_of (line_in text.now starts.now k) values.now) buf.new result }
    ensures upper_bound { result ≤ at + 1048576 }
{
    let start = starts[k];
    let end = starts[k + 1] - 1;
    put_form(buf, at, &text[start..end], values)
}
