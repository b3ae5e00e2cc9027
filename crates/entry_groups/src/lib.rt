// Entries of the elected and of the moved as words of a longer list, one behind the other from its start: put there, and
// read back. Beyond its last word a list reads as zeros, and nothing is written.
#![tactic(auto)]

ghost use Rattle.std.specs.Prelude.{min, ◌≡◌, ◌*◌, ◌++◌, length, drop, take, replicate};

use book::{ElectedWords, MovedWords};
use copying::copy_start;
use word_groups::{copy, first_words, rest};

// The entry at a place.
fn entry_at<const N: usize>(list: &[u64], i: usize) -> [u64; N]
    ensures { let behind = drop (i * N) list.now in let many = min N (length behind) in result ≡ take many behind ++ drop many (replicate N 0) }
{
    first_words(rest(list, i.saturating_mul(N)))
}

// The entries of a list, read.
fn read<const N: usize>(entries: &mut [[u64; N]], list: &[u64]) {
    copy(list, entries.as_flattened_mut());
}

// The entries of a list, put.
fn put<const N: usize>(list: &mut [u64], entries: &[[u64; N]]) {
    copy_start(list, entries.as_flattened());
}

// The same by the kind of entry, as the crates of the worksheet ask for them.

pub fn elected_at(list: &[u64], i: usize) -> ElectedWords {
    entry_at(list, i)
}

pub fn moved_at(list: &[u64], i: usize) -> MovedWords {
    entry_at(list, i)
}

pub fn read_elected(entries: &mut [ElectedWords], list: &[u64]) {
    read(entries, list);
}

pub fn read_moved(entries: &mut [MovedWords], list: &[u64]) {
    read(entries, list);
}

pub fn put_elected(list: &mut [u64], entries: &[ElectedWords]) {
    put(list, entries);
}

pub fn put_moved(list: &mut [u64], entries: &[MovedWords]) {
    put(list, entries);
}
