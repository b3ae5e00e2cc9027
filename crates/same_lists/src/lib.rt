// Lists compared: as long, and the same in every word of every entry.
#![tactic(auto)]

ghost use Rattle.std.specs.Prelude.{◌≤◌, ◌&&◌, ◌≡◌, length, take};
ghost use Rattle.book.specs.Lists.{same_by, same_list};

use book::{Counts, ElectedWords, MovedWords};

// Whether two lists of words are the same. By hand, as same_entries is: the edits change their comparisons.
#[tactic(auto, using(crate::proofs::Compared::words_differ))]
fn same_words(a: &[u64], b: &[u64]) -> bool
    ensures { result ≡ same_list a.now b.now }
{
    if a.len() != b.len() {
        return false;
    }
    for i in 0..a.len() {
        if a[i] != b[i] {
            return false;
        }
    }
    true
}

// Whether two lists of entries of N words are the same.
#[tactic(auto, using(crate::proofs::Compared::entries_differ))]
pub fn same_entries<const N: usize>(a: &[[u64; N]], b: &[[u64; N]]) -> bool
    ensures { result ≡ same_by same_list a.now b.now }
{
    if a.len() != b.len() {
        return false;
    }
    for i in 0..a.len() {
        if !same_words(&a[i], &b[i]) {
            return false;
        }
    }
    true
}

// Whether the lists that are handed in are what was listed: so many elected and moved entries, the same.
pub fn are_listed(
    elected: &[ElectedWords],
    moved: &[MovedWords],
    listed: &[ElectedWords],
    shifted: &[MovedWords],
    counts: Counts,
) -> bool
    requires { (counts.elected ≤ length listed.now) × (counts.moves ≤ length shifted.now) }
    ensures { result ≡ (same_by same_list elected.now (take counts.elected listed.now)
        && same_by same_list moved.now (take counts.moves shifted.now)) }
{
    let e = counts.elected as usize;
    let m = counts.moves as usize;
    if !same_entries(elected, &listed[..e]) {
        return false;
    }
    same_entries(moved, &shifted[..m])
}
