// The walk over a store of pending stops, print by print: its questions in their order, then a point at each price. A
// refused call alters nothing.
#![tactic(auto)]

ghost use Rattle.std.specs.Prelude.{map, ◌≡◌, length};
ghost use Rattle.book.specs.Calls.{written, walk_questions, walk_call};
ghost use Rattle.error.specs.Questions.{first_no};
ghost use Rattle.error.specs.Verdict.{told_verdict};
ghost use Rattle.error.specs.Answer.{told_answer};
ghost use Rattle.book.specs.Entries.{elected_words};
ghost use Rattle.pricelevel.specs.Price.{to_price};

use book::{Counts, ElectedWords, MOST_PRICES, Settings};
use children::complete;
use error::{Ask, Refusal};
use form::well_formed;
use price_walk::walk_points;
use pricelevel::Price;

// The questions of a walk: 1, 14, 16.
fn ask_walk(s: &[u64], prices: &[u64], elected: usize) -> Result<(), Refusal>
    ensures { told_verdict result ≡ first_no (walk_questions (map to_price prices.now) s.now elected) }
{
    if !well_formed(s) {
        return Err(Refusal::StoreNotWellFormed);
    }
    let count = s[1] as usize;
    Ok(())
        .ask(elected >= count, Refusal::ListTooShort)
        .ask(prices.len() >= 1, Refusal::PriceCountOutOfRange)
        .ask(prices.len() <= MOST_PRICES, Refusal::PriceCountOutOfRange)
}

// A walk: a point at each price in turn. The elected are written from the start of the list; later entries stay.
// Refused: the store is not well formed (1); the list is shorter than the pending count (14); not 1 to 4,096 prices
// (16).
pub fn walk(
    s: &mut [u64],
    settings: Settings,
    prev: Option<Price>,
    prices: &[u64],
    elected: &mut [ElectedWords],
) -> Result<Counts, Refusal>
    ensures { let o = walk_call settings prev (map to_price prices.now) s.old (length elected.old) in
        (told_answer result ≡ o.answer)
        × (s.new ≡ o.words)
        × (elected.new ≡ written (map elected_words o.elected) elected.old) }
{
    ask_walk(&s[..], prices, elected.len())?;
    let n = s[0];
    let o = walk_points(s, n, settings.kill, prev, prices, elected);
    complete(&s[..], n, settings, elected, 0, o.at);
    Ok(Counts {
        moves: o.moves,
        elected: o.at as u64,
    })
}
