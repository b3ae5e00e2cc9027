// Text and numbers on standard output.

pub fn text(t: &[u8]) {
    io::write_all(1, t);
}

// A number in decimal.
pub fn number(n: u64) {
    io::print_decimal(1, n);
}

// Words, each behind a space.
pub fn words(n: &[u64]) {
    for w in n {
        text(b" ");
        number(*w);
    }
}

// What a call returned, and the words of its answer, as many as the call can write.
pub fn answer<const N: usize>(returned: u64, answered: &[u64; N]) {
    number(returned);
    text(b", answer");
    words(answered);
}

// The words of the path.
pub fn path(p: &[u64; 4]) {
    text(b", path");
    words(p);
}
