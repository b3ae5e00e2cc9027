// A run of prices evaluated both ways, on two lent stores: by a segment over its ends, as a sweep's prints are, and by
// a walk over all of its prices. Document 01's demand 3, that a run that never falls or never rises is decided by its
// ends, is the promise of one call here.
#![tactic(auto)]

ghost use Rattle.std.specs.Prelude.{map, ◌≡◌, length};
ghost use Rattle.both_ways.specs.Alike.{Decided};
ghost use Rattle.both_ways.specs.Ends.{ends_call, Comparable};
ghost use Rattle.book.specs.Calls.{written, walk_call};
ghost use Rattle.error.specs.Answer.{told_answer};
ghost use Rattle.book.specs.Entries.{elected_words, moved_words};
ghost use Rattle.pricelevel.specs.Price.{to_price};

use book::{Counts, ElectedWords, MovedWords, PrintSegment, Settings};
use error::Refusal;
use evaluate_segment::segment;
use evaluate_walk::walk;
use pricelevel::Price;

// A segment from a run's first price to its last. Refused as a segment is, and without a price (16).
fn over_ends(
    s: &mut [u64],
    settings: Settings,
    prev: Option<Price>,
    prices: &[u64],
    elected: &mut [ElectedWords],
    moved: &mut [MovedWords],
) -> Result<Counts, Refusal>
    ensures { let o = ends_call settings prev (map to_price prices.now) s.old
        (length elected.old) (length moved.old) in
        (told_answer result ≡ o.answer)
        × (s.new ≡ o.words)
        × (elected.new ≡ written (map elected_words o.elected) elected.old)
        × (moved.new ≡ written (map moved_words o.moved) moved.old) }
{
    let count = prices.len();
    if count == 0 {
        return Err(Refusal::PriceCountOutOfRange);
    }
    let first = Price(prices[0]);
    let last = Price(prices[count - 1]);
    let prints = PrintSegment {
        prev: prev,
        first: first,
        last: last,
    };
    segment(s, settings, prints, elected, moved)
}

// What the segment over the ends answers, and what the walk.
#[derive(Clone, Copy)]
pub struct BothWays {
    pub ends: Result<Counts, Refusal>,
    pub run: Result<Counts, Refusal>,
}

// Evaluates a run of prices on one store by its ends and on the other price by price. Where the two stores are equal
// and well formed, the run never falls or never rises and has 1 to 4,096 prices, and the lists are as long as the calls
// demand, neither call is refused, both elect the same stops, and the stores are equal again.
pub fn evaluate_both_ways(
    ends: &mut [u64],
    run: &mut [u64],
    settings: Settings,
    prev: Option<Price>,
    prices: &[u64],
    elected: &mut [ElectedWords],
    moved: &mut [MovedWords],
    listed: &mut [ElectedWords],
) -> BothWays
    ensures decided { Comparable (map to_price prices.now) ends.old run.old (length elected.old)
        (length moved.old) (length listed.old)
        → Decided (told_answer result.ends) (told_answer result.run) ends.new run.new elected.new
        listed.new }
    ensures fact { let o = ends_call settings prev (map to_price prices.now) ends.old
        (length elected.old) (length moved.old) in
        (told_answer result.ends ≡ o.answer)
        × (ends.new ≡ o.words)
        × (elected.new ≡ written (map elected_words o.elected) elected.old)
        × (moved.new ≡ written (map moved_words o.moved) moved.old) }
    ensures fact_2 { let o = walk_call settings prev (map to_price prices.now) run.old (length listed.old) in
        (told_answer result.run ≡ o.answer)
        × (run.new ≡ o.words)
        × (listed.new ≡ written (map elected_words o.elected) listed.old) }
{
    let one = over_ends(ends, settings, prev, prices, elected, moved);
    let two = walk(run, settings, prev, prices, listed);
    BothWays {
        ends: one,
        run: two,
    }
}
