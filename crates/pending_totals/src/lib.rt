// The pending quantity of each side, in two words, as a sum of that many words may need more than one.
#![tactic(auto)]

ghost use Rattle.std.specs.Prelude.{◌≡◌, ◌+◌, ◌-◌, ◌≤◌, ◌<◌, ◌^◌};
ghost use Rattle.book.specs.Book.{pending_on};
ghost use Rattle.book.specs.Store.{quantity_of, total, totals_of};
ghost use Rattle.book.specs.Words.{slot_at, slots_at};
ghost use Rattle.chains.specs.Records.{Room, Record};
ghost use Rattle.pricelevel.specs.TwoWords.{number_of, two_words};

use book::Totals;
use pricelevel::{Side, TwoWords};
use records::word;
use stored_stops::side_from;

// The sum with x added to it.
fn plus(sum: TwoWords, x: u64) -> TwoWords
    requires { sum.high < 2 ^ 64 - 1 }
    ensures result_value { number_of result ≡ number_of sum + x }
    ensures high_bound { (result.high ≤ sum.high + 1) × (result.low < 2 ^ 64) }
{
    let low = TwoWords::sum(sum.low, x);
    TwoWords {
        high: sum.high + low.high,
        low: low.low,
    }
}

// The quantity in record i, if it is pending on this side, else 0.
fn quantity_on(s: &[u64], n: u64, side: Side, i: u64) -> u64
    requires { Record n s.now i }
    ensures { result ≡ quantity_of (pending_on side (slot_at s.now i)) }
{
    let quantity = word(s, n, i, 7);
    let own = side_from(word(s, n, i, 3));
    if own.number() == side.number() {
        return quantity;
    }
    0
}

// The pending quantity of a side, summed in the order of the records.
fn total_on(s: &[u64], n: u64, side: Side) -> TwoWords
    requires { Room n s.now }
    ensures { result ≡ two_words (total side (slots_at s.now 1 n)) }
{
    let mut sum = TwoWords { high: 0, low: 0 };
    for i in 1..n + 1 {
        let quantity = quantity_on(s, n, side, i);
        sum = plus(sum, quantity);
    }
    sum
}

// The pending quantity of each side.
pub fn pending_quantity(s: &[u64], n: u64) -> Totals
    requires { Room n s.now }
    ensures { result ≡ totals_of (slots_at s.now 1 n) }
{
    let sell = total_on(s, n, Side::Sell);
    let buy = total_on(s, n, Side::Buy);
    Totals {
        sell: sell,
        buy: buy,
    }
}
