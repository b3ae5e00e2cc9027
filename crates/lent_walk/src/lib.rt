// A walk over a lent list of records: what it elects is written as words into a local array, as far as the list has
// room, and from there into the list.
#![tactic(auto)]

ghost use Rattle.std.specs.Prelude.{map, ◌≡◌, length};
ghost use Rattle.error.specs.Answer.{told_answer};
ghost use Rattle.book.specs.Calls.{written, walk_call};
ghost use Rattle.pricelevel.specs.Price.{to_price};

use book::{Counts, ELECTED_WORDS, Elected, MOST_RECORDS, Settings};
use copying::least;
use error::Refusal;
use lent_lists::fill;
use pricelevel::Price;
use word_rooms::elected_count;

// A walk: a point at each price in turn. The elected are written from the start of the list; later entries stay.
// Refused: the store is not well formed (1); the list is shorter than the pending count (14); not 1 to 4,096 prices
// (16).
pub fn walk(
    s: &mut [u64],
    settings: Settings,
    prev: Option<Price>,
    prices: &[u64],
    elected: &mut [Elected],
) -> Result<Counts, Refusal>
    ensures { let o = walk_call settings prev (map to_price prices.now) s.old (length elected.old) in
        (told_answer result ≡ o.answer)
        × (s.new ≡ o.words)
        × (elected.new ≡ written o.elected elected.old) }
{
    let mut words = [[0u64; ELECTED_WORDS]; MOST_RECORDS];
    let room = least(elected.len(), MOST_RECORDS);
    let answer = evaluate_walk::walk(s, settings, prev, &prices[..], &mut words[..room]);
    fill(elected, &words, elected_count(answer));
    answer
}
