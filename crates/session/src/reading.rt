// Standard input as lines, read in blocks; the beginning of a line that a block leaves is kept for the next.
ghost use Rattle.std.specs.Prelude.{◌+◌, ◌-◌, ◌≤◌, ◌≡◌, length};

use crate::lending::Desk;
use crate::running;
use session_text::lent::MOST_WORDS;
use session_text::printing;

// Where a text's lines end, and what is lent after them.
#[derive(Clone, Copy)]
struct Done {
    at: usize,
    desk: Desk,
}

// Runs the lines that end in a text, and answers where the next begins.
fn lines(text: &[u8], words: &mut [u64], path: &mut [u64; 4], lent: Desk) -> Done
    ensures { result.at ≤ length text.now }
{
    let at = match text.iter().rposition(|c| *c == b'\n') {
        Some(last) => last + 1,
        None => 0,
    };
    let mut desk = lent;
    for whole in text[..at].split_inclusive(|c| *c == b'\n') {
        let line = whole.strip_suffix(b"\n").unwrap_or(whole);
        desk = running::line(line, words, path, desk);
    }
    Done { at, desk }
}

// Moves the bytes between two places to the beginning. Answers how many.
fn keep(text: &mut [u8], at: usize, end: usize) -> usize
    requires { (at ≤ end) × (end ≤ length text.old) }
    ensures { (result ≤ length text.old) × (length text.new ≡ length text.old) }
{
    text.copy_within(at..end, 0);
    end - at
}

// Reads on behind the first bytes, and answers how many came.
fn more(text: &mut [u8], kept: usize) -> usize
    requires { kept ≤ length text.old }
    ensures { (result ≤ length text.old - kept) × (length text.new ≡ length text.old) }
{
    io::read_full(0, &mut text[kept..])
}

// What a turn read, how many bytes of a line it kept, and what is lent after it.
#[derive(Clone, Copy)]
struct Turn {
    got: usize,
    kept: usize,
    desk: Desk,
}

// Reads on behind the bytes kept of a line, and runs the lines that end.
fn read_on(text: &mut [u8], kept: usize, words: &mut [u64], path: &mut [u64; 4], desk: Desk) -> Turn
    requires { kept ≤ length text.old }
    ensures got_in_bounds { (result.got ≤ length text.old - kept) × (result.kept ≤ length text.old) }
    ensures text_len_unchanged { length text.new ≡ length text.old }
{
    let got = more(text, kept);
    let end = kept + got;
    let done = lines(&text[0..end], words, path, desk);
    Turn {
        got,
        kept: keep(text, done.at, end),
        desk: done.desk,
    }
}

// The most blocks that are read, more than any input has.
const MOST_BLOCKS: u64 = 0x1_0000_0000;

// Runs every line of standard input, and answers how many bytes of a last line did not end.
fn blocks(text: &mut [u8], words: &mut [u64], path: &mut [u64; 4]) -> usize {
    let mut desk = Desk::default();
    let mut kept: usize = 0;
    for _ in 0..MOST_BLOCKS {
        let t = read_on(text, kept, words, path, desk);
        if t.got == 0 {
            return kept;
        }
        kept = t.kept;
        desk = t.desk;
    }
    kept
}

// Runs every line of standard input. A line that does not end, or is longer than a block, is not run.
pub fn session() {
    let mut text = io::large_buffer();
    let mut words = [0u64; MOST_WORDS];
    let mut path = [0u64; 4];
    let left = blocks(&mut text, &mut words, &mut path);
    if left > 0 {
        printing::text(b"a line without an end\n");
    }
}
