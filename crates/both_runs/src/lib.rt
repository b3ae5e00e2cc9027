// A run of prices evaluated on two lent stores: by a walk over its turning points, and by a walk over all of its prices.
// Document 02's claim of request Five, that the turning points of a run decide it, is the promise of one call here.
#![tactic(auto)]

ghost use Rattle.std.specs.Prelude.{map, ◌≡◌, length};
ghost use Rattle.error.specs.Answer.{told_answer};
ghost use Rattle.book.specs.Calls.{written, walk_call};
ghost use Rattle.book.specs.Entries.{elected_words};
ghost use Rattle.book.specs.TurningPoints.{turning_points_call};
ghost use Rattle.both_runs.specs.Turns.{turns_call, Comparable};
ghost use Rattle.both_ways.specs.Alike.{Decided};
ghost use Rattle.pricelevel.specs.Price.{to_price, price_word};

use book::{Counts, ElectedWords, Settings};
use error::Refusal;
use evaluate_walk::walk;
use pricelevel::Price;
use turning_points::turning_points;

// A walk over a run's turning points, which are written to turns. Refused as these are, and as a walk is.
fn over_turns(
    s: &mut [u64],
    settings: Settings,
    prev: Option<Price>,
    prices: &[u64],
    turns: &mut [u64],
    elected: &mut [ElectedWords],
) -> Result<Counts, Refusal>
    ensures { let t = turning_points_call (map to_price prices.now) (length turns.old) in
        let o = turns_call settings prev (map to_price prices.now) (length turns.old) s.old
        (length elected.old) in
        (told_answer result ≡ o.answer)
        × (s.new ≡ o.words)
        × (elected.new ≡ written (map elected_words o.elected) elected.old)
        × (turns.new ≡ written (map price_word t.listed) turns.old) }
{
    let found = turning_points(prices, turns);
    match found {
        Err(e) => Err(e),
        Ok(count) => {
            let n = count as usize;
            walk(s, settings, prev, &turns[..n], elected)
        }
    }
}

// What the walk over the turning points answers, and what the walk over the run.
#[derive(Clone, Copy)]
pub struct BothRuns {
    pub turns: Result<Counts, Refusal>,
    pub run: Result<Counts, Refusal>,
}

// Evaluates a run of prices on one store by its turning points, which are written to turns, and on the other price by
// price. Where the two stores are equal and well formed, the run has 1 to 4,096 prices, and the lists are as long as the
// calls demand, neither is refused, both elect the same stops, and the stores are equal again.
pub fn evaluate_both_runs(
    turned: &mut [u64],
    run: &mut [u64],
    settings: Settings,
    prev: Option<Price>,
    prices: &[u64],
    turns: &mut [u64],
    elected: &mut [ElectedWords],
    listed: &mut [ElectedWords],
) -> BothRuns
    ensures decided { Comparable (map to_price prices.now) turned.old run.old (length turns.old)
        (length elected.old) (length listed.old)
        → Decided (told_answer result.turns) (told_answer result.run) turned.new run.new elected.new
        listed.new }
    ensures fact { let t = turning_points_call (map to_price prices.now) (length turns.old) in
        let o = turns_call settings prev (map to_price prices.now) (length turns.old) turned.old
        (length elected.old) in
        (told_answer result.turns ≡ o.answer)
        × (turned.new ≡ o.words)
        × (elected.new ≡ written (map elected_words o.elected) elected.old)
        × (turns.new ≡ written (map price_word t.listed) turns.old) }
    ensures fact_2 { let o = walk_call settings prev (map to_price prices.now) run.old (length listed.old) in
        (told_answer result.run ≡ o.answer)
        × (run.new ≡ o.words)
        × (listed.new ≡ written (map elected_words o.elected) listed.old) }
{
    let one = over_turns(turned, settings, prev, prices, turns, elected);
    let two = walk(run, settings, prev, prices, listed);
    BothRuns {
        turns: one,
        run: two,
    }
}
