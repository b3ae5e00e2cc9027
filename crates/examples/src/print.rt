// Text and numbers on standard output.
use pricelevel::Side;

pub fn text(t: &[u8]) {
    io::write_all(1, t);
}

// A number in decimal, with a space before it.
pub fn number(n: u64) {
    text(b" ");
    io::print_decimal(1, n);
}

pub fn side(s: Side) {
    match s {
        Side::Buy => text(b"buy"),
        Side::Sell => text(b"sell"),
    }
}

// A word as sixteen hexadecimal digits.
pub fn word(n: u64) {
    io::print_hex(1, n, 16);
}

// Octets as hexadecimal digits, with a space before them.
pub fn octets(b: &[u8]) {
    text(b" ");
    for octet in b {
        io::print_hex(1, u64::from(*octet), 2);
    }
}
