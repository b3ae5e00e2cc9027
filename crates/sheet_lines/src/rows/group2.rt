// Rows 121 to 131: the text of their forms, a line for each, and where each begins.
ghost use Rattle.std.specs.Prelude.{◌+◌, ◌≤◌, ◌<◌, ◌≡◌, [], length, get_or};
ghost use Rattle.text_buffer.specs.Writing.{Put};
ghost use Rattle.text_forms.specs.Forms.{form_of};
ghost use Rattle.text_parts.specs.Parts.{joined, starts as Parts·starts};
ghost use Rattle.sheet_lines.specs.Rows.{rows2};

use text_parts::put_part;

const TEXT: [u8; 522] = *b"line %n: asked over the ends of %n prints, %n and %n: elects %n, moves %n
    moves %i: stop %n
    elects %n: %s %i, quantity %n, stop %n, limit %l, sequence %n, child %u, trigger %n
  nothing is moved or elected until commit
line %n: commit of what line %n asked: elects %n, moves %n
  committed: elected %n, moves %n
%n\twould move\t0\t\t\t%i\t\t%n
%n\twould elect\t%n\t%n\t%n\t%i\t%s\t%n\t\t\t%n\t%n\t\t%l\t%u
%n\tmoved\t0\t\t\t%i\t\t%n
line %n: not done: ask comes before commit
line %n: refused 20: what would be done now is not what was asked
";

const STARTS: [usize; 12] = [0, 74, 96, 184, 227, 286, 320, 345, 393, 413, 456, 522];

fn text() -> [u8; 522]
    ensures { result ≡ joined rows2 }
{
    TEXT
}

fn starts() -> [usize; 12]
    ensures { result ≡ Parts·starts 0 rows2 }
{
    STARTS
}

// Puts what the k-th of these rows makes of values from a place on.
pub fn put_group(buf: &mut [u8], at: usize, k: usize, values: &[u64]) -> usize
    requires at_in_bounds { at ≤ length buf.old }
    requires k_bound { k < 11 }
    ensures put { Put buf.old at (form_of (get_or rows2 k []) values.now) buf.new result }
    ensures upper_bound { result ≤ at + 1048576 }
{
    let text = text();
    let starts = starts();
    put_part(buf, at, &text, &starts, k, values)
}
