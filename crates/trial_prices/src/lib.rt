// Which of some trial prices elect a stop: the words of its entry in a ladder. The terms are taken as they stand and do
// not trail.
#![tactic(auto)]

ghost use Rattle.std.specs.Prelude.{map, ◌≡◌, ◌≤◌, length};
ghost use Rattle.book.specs.Ladder.{electing_from, bits_at, ladder_entry, ladder_words};
ghost use Rattle.book.specs.Sizes.{most_trial_prices};
ghost use Rattle.pricelevel.specs.Price.{to_price};

use book::LadderWords;
use pricelevel::Price;
use stop_terms::StopTerms;

// The word whose bit j says that price j elects the terms, built from the last price on.
fn electing_word(terms: StopTerms, prices: &[u64]) -> u64
    requires { length prices.now ≤ most_trial_prices }
    ensures { result ≡ bits_at (electing_from 0 terms (map to_price prices.now)) }
{
    let mut word: u64 = 0;
    for j in (0..prices.len()).rev() {
        word *= 2;
        if terms.elected_by(Price(prices[j])) {
            word += 1;
        }
    }
    word
}

// The word, how many prices elect the terms, and the place of the first that does, or 64.
pub fn ladder_entry(terms: StopTerms, prices: &[u64]) -> LadderWords
    requires { length prices.now ≤ most_trial_prices }
    ensures { result ≡ ladder_words (ladder_entry (map to_price prices.now) terms) }
{
    let word = electing_word(terms, prices);
    let count = u64::count_ones(word) as u64;
    let first = u64::trailing_zeros(word) as u64;
    [word, count, first]
}
