// A row of the table: its group, and its place there. The first groups are found first.
mod group0;
mod group1;
mod group2;

ghost use Rattle.std.specs.Prelude.{◌+◌, ◌≤◌, [], length, get_or};
ghost use Rattle.text_buffer.specs.Writing.{Put};
ghost use Rattle.text_forms.specs.Forms.{form_of};
ghost use Rattle.sheet_lines.specs.Rows.{rows as Rows·rows};

// Puts what the k-th row makes of values from a place on; nothing where there is no such row.
pub fn put_row(buf: &mut [u8], at: usize, k: u64, values: &[u64]) -> usize
    requires { at ≤ length buf.old }
    ensures put { Put buf.old at (form_of (get_or Rows·rows k []) values.now) buf.new result }
    ensures upper_bound { result ≤ at + 1048576 }
{
    if k < 16 {
        return group0::put_group(buf, at, k as usize, values);
    }
    let k1 = k - 16;
    if k1 < 105 {
        return group1::put_group(buf, at, k1 as usize, values);
    }
    let k2 = k1 - 105;
    if k2 < 11 {
        return group2::put_group(buf, at, k2 as usize, values);
    }
    at
}
