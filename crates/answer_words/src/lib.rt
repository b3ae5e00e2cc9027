// What a call answers, as the words that a host lends for it.
#![tactic(auto)]

ghost use Rattle.std.specs.Prelude.{List, ◌≡◌, ℕ};
ghost use Rattle.error.specs.Answer.{told_answer};
ghost use Rattle.book.specs.Entries.{stop_words};
ghost use Rattle.host_words.specs.Answers.{Told, counts_words, found_words, listed_words, pass_words, seq_words, totals_words};

use book::{Counts, DATA_WORDS, PassCounts, StopEntry, Totals};
use error::Refusal;
use host_words::FOUND_WORDS;
use pricelevel::Seq;
use record_writer::stop_words;

// What a call answers where it is accepted, in N words.
pub trait Answered<const N: usize> {
    ghost words: { Self → List ℕ };

    fn words(self) -> [u64; N]
        ensures { result ≡ words self };
}

// The sequence of an admission.
impl Answered<1> for Seq {
    ghost words = { seq_words };

    fn words(self) -> [u64; 1] {
        [self.0]
    }
}

// How many stops were listed.
impl Answered<1> for u64 {
    ghost words = { listed_words };

    fn words(self) -> [u64; 1] {
        [self]
    }
}

impl Answered<2> for Counts {
    ghost words = { counts_words };

    fn words(self) -> [u64; 2] {
        [self.moves, self.elected]
    }
}

impl Answered<3> for PassCounts {
    ghost words = { pass_words };

    fn words(self) -> [u64; 3] {
        [self.moves, self.elected, self.used]
    }
}

// Of the sells high, low; of the buys high, low.
impl Answered<4> for Totals {
    ghost words = { totals_words };

    fn words(self) -> [u64; 4] {
        [self.sell.high, self.sell.low, self.buy.high, self.buy.low]
    }
}

impl Answered<DATA_WORDS> for StopEntry {
    ghost words = { stop_words };

    fn words(self) -> [u64; DATA_WORDS] {
        stop_words(self)
    }
}

// Whether a stop was found, and its words or zeros.
impl Answered<FOUND_WORDS> for Option<StopEntry> {
    ghost words = { found_words };

    fn words(self) -> [u64; FOUND_WORDS] {
        let Some(t) = self else {
            return [0; FOUND_WORDS];
        };
        let w = stop_words(t);
        [
            1, w[0], w[1], w[2], w[3], w[4], w[5], w[6], w[7], w[8], w[9], w[10], w[11], w[12],
        ]
    }
}

// What a call returns: 0, and the words of what it accepted; or the number of its refusal, which leaves the lent words.
pub fn answer<T: Answered<N> + Copy, const N: usize>(
    r: Result<T, Refusal>,
    words: &mut [u64; N],
) -> u64
    ensures { Told T.words (told_answer r) words.old result words.new }
{
    match r {
        Ok(t) => {
            *words = t.words();
            0
        }
        Err(e) => e.number(),
    }
}
