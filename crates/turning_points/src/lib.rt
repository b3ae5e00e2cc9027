// The turning points of a run of prices: its first price, each at which it turns, and its last. One pass over the prices:
// once the next one is read, a price is written or passed over for good.
#![tactic(auto)]

ghost use Rattle.std.specs.Prelude.{map, ◌≡◌, ◌≤◌, length};
ghost use Rattle.error.specs.Answer.{told_answer};
ghost use Rattle.book.specs.Calls.{written};
ghost use Rattle.book.specs.TurningPoints.{turns_at, turning_points, turning_points_questions, turning_points_call};
ghost use Rattle.error.specs.Questions.{first_no};
ghost use Rattle.error.specs.Verdict.{told_verdict};
ghost use Rattle.pricelevel.specs.Price.{to_price, price_word};

use book::MOST_PRICES;
use error::{Ask, Refusal};

// The questions: 16, 14.
fn ask_turning_points(prices: &[u64], list: usize) -> Result<(), Refusal>
    ensures { told_verdict result ≡ first_no (turning_points_questions (map to_price prices.now) list) }
{
    Ok(())
        .ask(prices.len() >= 1, Refusal::PriceCountOutOfRange)
        .ask(prices.len() <= MOST_PRICES, Refusal::PriceCountOutOfRange)
        .ask(list >= prices.len(), Refusal::ListTooShort)
}

// Whether a run that began or last turned at start, and has come to here, turns there if next follows.
fn turns_at(start: u64, here: u64, next: u64) -> bool
    ensures { result ≡ turns_at (to_price start) (to_price here) (to_price next) }
{
    if start < here {
        return next < here;
    }
    if here < start {
        return here < next;
    }
    false
}

// Writes the turning points of a run from the start of the list; later places stay. Answers how many.
fn write_turning_points(prices: &[u64], list: &mut [u64]) -> usize
    requires { (1 ≤ length prices.now) × (length prices.now ≤ length list.old) }
    ensures { let l = turning_points (map to_price prices.now) in
        (result ≡ length l) × (list.new ≡ written (map price_word l) list.old) }
{
    list[0] = prices[0];
    if prices.len() == 1 {
        return 1;
    }
    let mut start = prices[0];
    let mut here = prices[1];
    let mut count: usize = 1;
    for i in 2..prices.len() {
        let next = prices[i];
        if !turns_at(start, here, next) {
            here = next;
            continue;
        }
        list[count] = here;
        count += 1;
        start = here;
        here = next;
    }
    list[count] = here;
    count + 1
}

// Writes the turning points of a run of prices from the start of the list; later places stay. A walk over them elects
// what the walk over the run elects, and leaves the store that it leaves. Answers how many there are. Refused: not 1 to
// 4,096 prices (16); fewer places than prices (14).
pub fn turning_points(prices: &[u64], list: &mut [u64]) -> Result<u64, Refusal>
    ensures { let o = turning_points_call (map to_price prices.now) (length list.old) in
        (told_answer result ≡ o.answer)
        × (list.new ≡ written (map price_word o.listed) list.old) }
{
    // No `?`: an edit changes what is handed up.
    if let Err(e) = ask_turning_points(prices, list.len()) {
        return Err(e);
    }
    let count = write_turning_points(prices, list);
    Ok(count as u64)
}
