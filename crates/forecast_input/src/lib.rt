// The input of the program `forecast`: a store, a price count and the prices as bytes, the lowest first. What bytes
// name is decided here, and how many of them decide: bytes that are no words name an empty store, and prices that are
// not as many as their count name none.
#![tactic(auto)]

ghost use Rattle.std.specs.Prelude.{◌≡◌, List, ℕ, ◌+◌, ◌*◌, ◌≤◌, ◌<◌, ◌^◌, length, take};
ghost use Rattle.forecast_input.specs.Input.{four_at, word_at, words_at, word_count, words_of, store_in, prices_in, SameInput, room_bytes};

pub use book::STORE_WORDS;
use book::{HEADER_WORDS, MOST_PRICES, MOST_RECORDS, RECORD_WORDS};
use copying::least;

// The bytes of the longest input that is accepted: the longest store, a count, and the most prices.
const LONGEST_BYTES: usize = 8 * (STORE_WORDS + 1 + MOST_PRICES);

// Two words more.
pub const ROOM_BYTES: usize = LONGEST_BYTES + 16;

fn wide(b: u8) -> u64
    ensures { (result ≡ b) × (result < 256) }
{
    b as u64
}

// Four bytes from place p on as a number, the lowest first.
fn four_at(bytes: &[u8], p: usize) -> u64
    requires { p + 4 ≤ length bytes.now }
    ensures value { result ≡ four_at bytes.now p }
    ensures upper_bound { result < 2 ^ 32 }
{
    let a = wide(bytes[p]);
    let b = wide(bytes[p + 1]);
    let c = wide(bytes[p + 2]);
    let d = wide(bytes[p + 3]);
    a + 256 * (b + 256 * (c + 256 * d))
}

// Word i of the bytes.
fn word_at(bytes: &[u8], i: usize) -> u64
    requires { 8 * i + 8 ≤ length bytes.now }
    ensures { result ≡ word_at bytes.now i }
{
    let low = four_at(bytes, 8 * i);
    let high = four_at(bytes, 8 * i + 4);
    low + 0x1_0000_0000 * high
}

// Fills a slice with the words from word i on.
pub fn read_words(bytes: &[u8], i: usize, words: &mut [u64])
    requires { 8 * (i + length words.old) ≤ length bytes.now }
    ensures { words.new ≡ words_at bytes.now i (length words.old) }
{
    for (k, word) in words.iter_mut().enumerate() {
        *word = word_at(bytes, i + k);
    }
}

// How many words the bytes are: none where they are no multiple of 8.
pub fn word_count(bytes: &[u8]) -> usize
    ensures { result ≡ word_count bytes.now }
{
    if bytes.len() % 8 != 0 {
        return 0;
    }
    bytes.len() / 8
}

// How many of the words are the store's.
pub fn store_length(bytes: &[u8]) -> usize
    ensures { result ≡ length (store_in (words_of bytes.now)) }
{
    let count = word_count(bytes);
    if count == 0 {
        return 0;
    }
    let n = word_at(bytes, 0);
    if n > MOST_RECORDS as u64 {
        return least(STORE_WORDS, count);
    }
    least(HEADER_WORDS + RECORD_WORDS * (n as usize), count)
}

// How many prices the words behind the store are: none where these are not a count up to 4,096 and as many prices.
pub fn price_count(bytes: &[u8]) -> usize
    ensures { result ≡ length (prices_in (words_of bytes.now)) }
{
    let count = word_count(bytes);
    let at = store_length(bytes);
    if at >= count {
        return 0;
    }
    let prices = word_at(bytes, at);
    if prices > MOST_PRICES as u64 {
        return 0;
    }
    if count - at - 1 != (prices as usize) {
        return 0;
    }
    prices as usize
}

// How many of the first bytes of an input decide its forecast, where so many are read and so many are left: all
// where none are left; else one word more than the longest that is accepted is as good as any number, but for what
// is left of a word.
pub fn decisive(got: usize, left: usize) -> usize
    requires { got + left < 2 ^ 64 }
    ensures by_index { (bytes : List ℕ) → length bytes ≡ got + left → ((left ≡ 0 → ⊥) → room_bytes ≤ got) → SameInput (take result bytes) bytes }
    ensures upper_bound { result ≤ got }
{
    if left == 0 {
        return got;
    }
    if got < ROOM_BYTES {
        return got;
    }
    LONGEST_BYTES + 8 + (got + left) % 8
}
