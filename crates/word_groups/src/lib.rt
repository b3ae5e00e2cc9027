// Words of a list, taken one by one and in groups: beyond its last word a list reads as zeros, and nothing is written.
#![tactic(auto)]

ghost use Rattle.std.specs.Prelude.{min, ◌≡◌, ◌++◌, length, get_or, set, drop, take, replicate};

use copying::copy_start;

// The word at a place; 0 beyond the last.
pub fn word(n: &[u64], p: usize) -> u64
    ensures { result ≡ get_or n.now p 0 }
{
    n.get(p).copied().unwrap_or(0)
}

// Sets the word at a place; beyond the last, none.
pub fn set(n: &mut [u64], p: usize, v: u64)
    ensures { n.new ≡ set n.old p v }
{
    if p < n.len() {
        n[p] = v;
    }
}

// The last word of a list; 0 where it has none.
pub fn last(n: &[u64]) -> u64 {
    n.last().copied().unwrap_or(0)
}

// The words from a place on; none beyond the last.
pub fn rest(n: &[u64], at: usize) -> &[u64]
    ensures { result.now ≡ drop at n.now }
{
    n.get(at..).unwrap_or(&[])
}

// The first words of a list, or all of them where it has fewer.
pub fn first(n: &[u64], many: usize) -> &[u64]
    ensures { result.now ≡ take many n.now }
{
    n.get(..many).unwrap_or(n)
}

// Copies words to the beginning of others, and zeros to the rest of these.
pub fn copy(from: &[u64], to: &mut [u64]) {
    to.fill(0);
    copy_start(to, from);
}

// The first words of some, as many as the array has, zeros beyond the last.
pub fn first_words<const N: usize>(n: &[u64]) -> [u64; N]
    ensures { let many = min N (length n.now) in result ≡ take many n.now ++ drop many (replicate N 0) }
{
    let mut some = [0; N];
    copy_start(&mut some, n);
    some
}

// The same by its number of words, as the crates of the worksheet ask for them.

pub fn two(n: &[u64]) -> [u64; 2] {
    first_words(n)
}

pub fn three(n: &[u64]) -> [u64; 3] {
    first_words(n)
}

pub fn four(n: &[u64]) -> [u64; 4] {
    first_words(n)
}

pub fn five(n: &[u64]) -> [u64; 5] {
    first_words(n)
}
