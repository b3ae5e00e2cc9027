// Cases as lines of text. An input is written as document 01 writes one, words in decimal, with a plus for each
// byte behind them that is no word; `length N` makes the input before it N bytes long, with zeros behind it where
// it was shorter; a heading starts with #.
ghost use Rattle.std.specs.Prelude.{◌+◌, ◌≤◌, length};

use crate::files;

// Writes a word as eight bytes, the lowest first.
fn put_word(bytes: &mut [u8], p: usize, word: u64)
    requires { p + 8 ≤ length bytes.old }
{
    bytes[p..p + 8].copy_from_slice(&word.to_le_bytes());
}

// Writes a word behind the first n bytes, if it is at its end, and answers how many there are then.
fn add_word(bytes: &mut [u8], n: usize, ends: bool, word: u64) -> usize
    requires { n ≤ length bytes.old }
    ensures { result ≤ length bytes.old }
{
    if !ends || bytes.len() - n < 8 {
        return n;
    }
    put_word(bytes, n, word);
    n + 8
}

// Writes a byte behind the first n for a plus, and answers how many there are then.
fn add_byte(bytes: &mut [u8], n: usize, c: u8) -> usize
    requires { n ≤ length bytes.old }
    ensures { result ≤ length bytes.old }
{
    if c != b'+' || n == bytes.len() {
        return n;
    }
    bytes[n] = 0;
    n + 1
}

// A number with a digit behind it; 0 with anything else.
fn append(value: u64, c: u8) -> u64 {
    if !c.is_ascii_digit() {
        return 0;
    }
    if value > 1844674407370955161 {
        return value;
    }
    (value * 10).wrapping_add(u64::from(c - b'0'))
}

// Writes the bytes that a text stands for, and answers how many they are.
fn encode(bytes: &mut [u8], text: &[u8]) -> usize
    ensures { result ≤ length bytes.old }
{
    let mut n: usize = 0;
    let mut open = false;
    let mut value: u64 = 0;
    for c in text {
        n = add_word(bytes, n, open && !c.is_ascii_digit(), value);
        n = add_byte(bytes, n, *c);
        value = append(value, *c);
        open = c.is_ascii_digit();
    }
    add_word(bytes, n, open, value)
}

// The forecast of the bytes that a text stands for.
fn input(rt: &HostRuntime, text: &[u8]) -> std::io::Result<()> {
    let mut room = io::large_buffer();
    let bytes: &mut [u8] = &mut room;
    let n = encode(bytes, text);
    let all = &bytes[..];
    files::write(rt, &all[0..n])?;
    files::forecast(rt)
}

// The number that a text ends with.
fn last_number(text: &[u8]) -> u64 {
    text.iter().fold(0, |value, c| append(value, *c))
}

// A line by its first byte.
fn starting(rt: &HostRuntime, c: u8, text: &[u8]) -> std::io::Result<()> {
    match c {
        b'#' => {
            io::write_all(1, text);
            io::write_all(1, b"\n");
            Ok(())
        }
        b'l' => {
            files::set_length(rt, last_number(text))?;
            files::forecast(rt)
        }
        _ => input(rt, text),
    }
}

fn line(rt: &HostRuntime, text: &[u8]) -> std::io::Result<()> {
    match text.first() {
        Some(c) => starting(rt, *c, text),
        None => input(rt, text),
    }
}

// Each line in turn.
pub fn lines(rt: &HostRuntime, text: &[u8]) -> std::io::Result<()> {
    for whole in text.split_inclusive(|c| *c == b'\n') {
        line(rt, whole.strip_suffix(b"\n").unwrap_or(whole))?;
    }
    Ok(())
}
