// The words of a record and of the header: where they stand, reading and writing them, and the rank that orders a
// chain.
#![tactic(auto)]

ghost use Rattle.std.specs.Prelude.{◌≡◌, ◌+◌, ◌*◌, ◌≤◌, ◌<◌, ltb, length};
ghost use Rattle.std.proofs.lemmas.List.Edits.{sets};
ghost use Rattle.book.specs.Words.{cell, record_word};
ghost use Rattle.book.specs.Sizes.{header_length, most_records, record_length};
ghost use Rattle.chains.specs.Rank.{pair, rank_at};
ghost use Rattle.chains.specs.Records.{Record};
ghost use Rattle.book.specs.Chains.{head_of, link_of};

use book::{Chain, HEADER_WORDS, NEXT_BY_STOP, NEXT_BY_WATERMARK, RECORD_WORDS};
use chains::Rank;
use pricelevel::Side;

// ---------------------------------------------------------------------
// Words of a record

// Where word k of record i stands. The second clause says so without a difference, for the arithmetic of callers.
pub fn cell(i: u64, k: usize) -> usize
    requires { (1 ≤ i) × (i ≤ most_records) × (k < record_length) }
    ensures value { result ≡ cell i k }
    ensures record_length_value { result + record_length ≡ header_length + record_length * i + k }
{
    HEADER_WORDS + RECORD_WORDS * (i as usize - 1) + k
}

// Word k of record i of a store of n records.
pub fn word(s: &[u64], n: u64, i: u64, k: usize) -> u64
    requires { Record n s.now i × (k < record_length) }
    ensures { result ≡ record_word s.now i k }
{
    let at = cell(i, k);
    s[at]
}

// Stores words from a place on.
pub fn put_words(s: &mut [u64], at: usize, words: &[u64])
    requires { at + length words.now ≤ length s.old }
    ensures { s.new ≡ sets s.old at words.now }
{
    for k in 0..words.len() {
        s[at + k] = words[k];
    }
}

// Writes the words of record i, its links among them.
pub fn write_record(s: &mut [u64], n: u64, i: u64, words: &[u64; RECORD_WORDS])
    requires { Record n s.old i }
    ensures { s.new ≡ sets s.old (cell i 0) words.now }
{
    put_words(s, cell(i, 0), words);
}

// ---------------------------------------------------------------------
// Ranks

// The rank of record i in a chain's order.
pub fn rank_of(s: &[u64], n: u64, c: Chain, i: u64) -> Rank
    requires { Record n s.now i }
    ensures { pair result ≡ rank_at c s.now i }
{
    let seq = word(s, n, i, 8);
    match c {
        Chain::ByStop(side) => {
            let stop = word(s, n, i, 4);
            match side {
                Side::Sell => Rank {
                    key: u64::MAX - stop,
                    tie: seq,
                },
                Side::Buy => Rank {
                    key: stop,
                    tie: seq,
                },
            }
        }
        Chain::ByWatermark(side) => {
            let watermark = word(s, n, i, 5);
            match side {
                Side::Sell => Rank {
                    key: watermark,
                    tie: seq,
                },
                Side::Buy => Rank {
                    key: u64::MAX - watermark,
                    tie: u64::MAX - seq,
                },
            }
        }
    }
}

// Whether one rank comes before another.
pub fn is_before(x: Rank, y: Rank) -> bool
    ensures { result ≡ ltb (pair x) (pair y) }
{
    let tie = x.tie < y.tie;
    if x.key == y.key {
        return tie;
    }
    x.key < y.key
}

// ---------------------------------------------------------------------
// The chains of a store

// The header word that starts a chain.
pub fn head_of(c: Chain) -> usize
    ensures { result ≡ head_of c }
{
    match c {
        Chain::ByStop(side) => match side {
            Side::Sell => 4,
            Side::Buy => 6,
        },
        Chain::ByWatermark(side) => match side {
            Side::Sell => 5,
            Side::Buy => 7,
        },
    }
}

// The word of a record that links it to the next of a chain.
pub fn link_of(c: Chain) -> usize
    ensures { result ≡ link_of c }
{
    match c {
        Chain::ByStop(_) => NEXT_BY_STOP,
        Chain::ByWatermark(_) => NEXT_BY_WATERMARK,
    }
}
