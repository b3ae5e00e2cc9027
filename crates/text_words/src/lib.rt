// The words of a line.
//
// A word is two places of the line, and nothing is copied. Where the two are one there is no word, and that is the place where one should begin.
#![tactic(auto)]

ghost use Rattle.std.specs.Prelude.{ℕ, Bool, ◌+◌, ◌≤◌, ◌<◌, ◌≡◌, ◌↔◌, IsTrue, EachIndex, slice_index, length, drop};
ghost use Rattle.text_words.specs.Words.{separates as Words·separates, spells as Words·spells, folded as Words·folded, run, word_start, word_end, same_text};

// Where a word begins and ends.
#[derive(Clone, Copy)]
pub struct Word {
    pub start: usize,
    pub end: usize,
}

// Whether a byte separates words.
#[tactic(auto, unfolding(crate::specs::Words::separates))]
fn separates(b: u8) -> bool
    ensures { result ≡ Words·separates b }
{
    matches!(b, b' ' | b'\t' | b',' | b';' | b'\r')
}

// Whether a byte belongs to a word.
#[tactic(auto, unfolding(crate::specs::Words::spells))]
fn spells(b: u8) -> bool
    ensures { result ≡ Words·spells b }
{
    b != b'#' && !separates(b)
}

// The first place, from one on, that does not pass.
fn passed<F: Fn(u8) -> bool>(line: &[u8], at: usize, passes: F) -> usize
    requires at_bound { at ≤ length line.now }
    requires calls { F.IsAlwaysCallable passes }
    ensures value { (p : ℕ → Bool) → ((b : ℕ) (r : Bool) → F.post passes b r → r ≡ p b) → result ≡ at + run p (drop at line.now) }
    ensures bounds { (at ≤ result) × (result ≤ length line.now) }
{
    let rest = &line[at..];
    for (k, b) in rest.iter().enumerate() {
        if !passes(*b) {
            return at + k;
        }
    }
    line.len()
}

// The next word.
pub fn next_word(line: &[u8], at: usize) -> Word
    requires { at ≤ length line.now }
    ensures start_value { (result.start ≡ word_start line.now at) × (result.end ≡ word_end line.now at) }
    ensures start_le_end { (result.start ≤ result.end) × (result.end ≤ length line.now) }
{
    let start = passed(line, at, separates);
    Word {
        start,
        end: passed(line, start, spells),
    }
}

// A letter from A to Z as the small one.
#[tactic(auto, unfolding(crate::specs::Words::folded))]
pub fn folded(b: u8) -> u8
    ensures { result ≡ Words·folded b }
{
    match b {
        b'A'..=b'Z' => b + 32,
        _ => b,
    }
}

// Whether two texts are the same, but for the case of their letters, as far as both go.
fn same_letters(a: &[u8], b: &[u8]) -> bool
    ensures { IsTrue result ↔ EachIndex a.now (λ k. k < length b.now → Words·folded (slice_index a.now k) ≡ Words·folded (slice_index b.now k)) }
{
    a.iter().zip(b).all(|(x, y)| folded(*x) == folded(*y))
}

// Whether two texts are the same, but for the case of their letters.
pub fn same(a: &[u8], b: &[u8]) -> bool
    ensures { result ≡ same_text a.now b.now }
{
    a.len() == b.len() && same_letters(a, b)
}
