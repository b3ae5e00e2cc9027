// One chain: the place of a record is found, and the record linked in or out.
#![tactic(auto)]

ghost use Rattle.std.specs.Prelude.{List, ◌≡◌, ℕ, ◌<◌, T, length};
ghost use Rattle.book.specs.Words.{cell};
ghost use Rattle.chains.specs.Indices.{has};
ghost use Rattle.chains.specs.Links.{Linked, Walk, place, spot, put_in, put_out};
ghost use Rattle.chains.specs.Rank.{rank_at};
ghost use Rattle.chains.specs.Records.{Record};

use book::Chain;
use records::{cell, is_before, rank_of};

// ---------------------------------------------------------------------
// One chain: the word at head starts it, and word link of each record goes on

// Where the word stands that is to name record i, in the chain that the word at head starts.
pub fn seek(s: &[u64], n: u64, c: Chain, link: usize, head: usize, i: u64) -> usize
    requires fact { Record n s.now i }
    requires by_index { (l : List ℕ) × Walk n s.now link head l }
    ensures by_index_2 { (l : List ℕ) → Linked n s.now link head l → result ≡ place (rank_at c s.now) link i head l }
    ensures upper_bound { result < length s.now }
{
    let x = rank_of(s, n, c, i);
    let mut p = head;
    let mut left = n;
    loop {
        let j = s[p];
        if j == 0 {
            return p;
        }
        let y = rank_of(s, n, c, j);
        if is_before(x, y) {
            return p;
        }
        p = cell(j, link);
        left = left - 1;
    }
}

// Links record i into the chain that the word at head starts, at its place.
pub fn link_in(s: &mut [u64], n: u64, c: Chain, link: usize, head: usize, i: u64)
    requires fact { Record n s.old i }
    requires by_index { (l : List ℕ) × Walk n s.old link head l }
    ensures { (l : List ℕ) → Linked n s.old link head l
        → s.new ≡ put_in s.old link i (place (rank_at c s.old) link i head l) }
{
    let p = seek(&s[..], n, c, link, head, i);
    let at = cell(i, link);
    let next = s[p];
    s[at] = next;
    s[p] = i;
}

// Where the word stands that names record i, in the chain that the word at head starts.
pub fn find(s: &[u64], n: u64, link: usize, head: usize, i: u64) -> usize
    requires { (l : List ℕ) × Walk n s.now link head l × T (has i l) }
    ensures by_index { (l : List ℕ) → Linked n s.now link head l → result ≡ spot link i head l }
    ensures upper_bound { result < length s.now }
{
    let mut p = head;
    let mut left = n;
    loop {
        let j = s[p];
        if j == i {
            return p;
        }
        p = cell(j, link);
        left = left - 1;
    }
}

// Takes record i out of the chain that the word at head starts. Its own link stays as it is.
pub fn link_out(s: &mut [u64], n: u64, link: usize, head: usize, i: u64)
    requires fact { Record n s.old i }
    requires by_index { (l : List ℕ) × Walk n s.old link head l × T (has i l) }
    ensures { (l : List ℕ) → Linked n s.old link head l
        → s.new ≡ put_out s.old link i (spot link i head l) }
{
    let p = find(&s[..], n, link, head, i);
    let at = cell(i, link);
    let next = s[at];
    s[p] = next;
}
