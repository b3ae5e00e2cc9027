// Rows 0 to 15: the text of their forms, a line for each, and where each begins.
ghost use Rattle.std.specs.Prelude.{◌+◌, ◌≤◌, ◌<◌, ◌≡◌, [], length, get_or};
ghost use Rattle.text_buffer.specs.Writing.{Put};
ghost use Rattle.text_forms.specs.Forms.{form_of};
ghost use Rattle.text_parts.specs.Parts.{joined, starts as Parts·starts};
ghost use Rattle.sheet_lines.specs.Rows.{rows0};

use text_parts::put_part;

const TEXT: [u8; 702] = *b"  print %n at %n
    moved %i: stop %n to %n, watermark %n to %n
    elected %n: %s %i, quantity %n, stop %n, limit %l, sequence %n, child %u
%n\tprint\t%n\t%n
%n\tmoved\t%n\t%n\t\t%i\t\t%n\t%n\t\t\t\t\t\t\t%n\t%n
%n\telected\t%n\t%n\t%n\t%i\t%s\t%n\t\t\t%n\t%n\t\t%l\t%u
<path class=\"%s\" d=\"M%n %nV%nH%nV%n\"/>
%n,%n
<circle class=\"%s\" cx=\"%n\" cy=\"%n\" r=\"75\"/><text class=\"turn\" x=\"%n\" y=\"%n\">%n</text>
    %i: %s, stop %n, watermark %n, trail %n, quantity %n, sequence %n
    %i: %s, stop %n, watermark %n, trail %n, quantity %n, sequence %n, holder %h
%n\tleft\t\t\t\t%i\t%s\t%n\t%n\t%n\t%n\t%n\t%h
%n\tlisted\t\t\t\t%i\t%s\t%n\t%n\t%n\t%n\t%n\t%h
      that child identity is pending in the store
line %n: a store of %n records, tick %n
line %n: collar %o
";

const STARTS: [usize; 17] = [
    0, 17, 65, 142, 157, 195, 239, 278, 284, 370, 440, 521, 556, 593, 643, 683, 702,
];

fn text() -> [u8; 702]
    ensures { result ≡ joined rows0 }
{
    TEXT
}

fn starts() -> [usize; 17]
    ensures { result ≡ Parts·starts 0 rows0 }
{
    STARTS
}

// Puts what the k-th of these rows makes of values from a place on.
pub fn put_group(buf: &mut [u8], at: usize, k: usize, values: &[u64]) -> usize
    requires at_in_bounds { at ≤ length buf.old }
    requires k_bound { k < 16 }
    ensures put { Put buf.old at (form_of (get_or rows0 k []) values.now) buf.new result }
    ensures upper_bound { result ≤ at + 1048576 }
{
    let text = text();
    let starts = starts();
    put_part(buf, at, &text, &starts, k, values)
}
