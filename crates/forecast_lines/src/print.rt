// A forecast on standard output: document 01's lines.
use book::ElectedWords;
use error::Refusal;

fn text(t: &[u8]) {
    io::write_all(1, t);
}

// A number in decimal, with a space before it.
fn field(n: u64) {
    text(b" ");
    io::print_decimal(1, n);
}

fn side(of: u64) {
    match of {
        0 => text(b" buy"),
        _ => text(b" sell"),
    }
}

// An elected entry: kind, high, low, side, stop, quantity, sequence, trigger.
fn entry(e: ElectedWords) {
    io::print_decimal(1, e[0]);
    field(e[1]);
    field(e[2]);
    side(e[3]);
    field(e[4]);
    field(e[5]);
    field(e[6]);
    field(e[7]);
    text(b"\n");
}

// The number elected, and a line for each entry.
pub fn entries(elected: &[ElectedWords], count: u64) {
    text(b"elected");
    field(count);
    text(b"\n");
    for e in elected.iter().take(count as usize) {
        entry(*e);
    }
}

pub fn refusal(r: Refusal) {
    text(b"refused");
    field(r.number());
    text(b"\n");
}
