// Protection collar for elected stops, from orderbook-rs's stop_protection.rs: an elected stop executes as a limit
// order at its stop price moved by the collar against it. A sell's collar that reaches past the lowest price does not
// protect it. A buy's limit may pass the highest price, so it has two words.
#![tactic(auto)]

ghost use Rattle.std.specs.Prelude.{◌≡◌, ◌<◌, ◌^◌};
ghost use Rattle.error.specs.Answer.{told_answer};
ghost use Rattle.pricelevel.specs.TwoWords.{number_of};
ghost use Rattle.stop_protection.specs.Collar.{try_new, limit_for, limit_under, limit_words, check_tick_size};

use error::Refusal;
use pricelevel::{Price, Side, TwoWords};

// The limit price of an elected stop's order. It has a type of its own, since no order rests at it: a buy's may need
// both words.
#[derive(Clone, Copy)]
pub struct LimitPrice(pub TwoWords);

// The words of the limit of an elected stop's order, none for a market order: present (0, 1), and the price's high and
// low word, or zeros.
pub fn limit_words(limit: Option<LimitPrice>) -> [u64; 3]
    ensures { result ≡ limit_words limit }
{
    let Some(price) = limit else {
        return [0, 0, 0];
    };
    let words = price.0;
    [1, words.high, words.low]
}

// A collar, in price units, which is never zero: no protection is None, not a zero collar.
#[derive(Clone, Copy)]
pub struct StopProtection {
    collar: u64,
}

impl StopProtection {
    // The lowest price: a sell's limit below it is unbounded.
    pub const LOWEST_PRICE: u64 = 0;

    // The highest price. It caps no limit: a buy's goes on above it.
    pub const HIGHEST_PRICE: u64 = 0xffff_ffff_ffff_ffff;

    // A protection with a collar of so many price units. Refused: a zero collar (17).
    pub fn try_new(collar: u64) -> Result<StopProtection, Refusal>
        ensures { told_answer result ≡ try_new collar }
    {
        if collar == 0 {
            return Err(Refusal::ZeroCollar);
        }
        Ok(StopProtection { collar: collar })
    }

    // The collar, in price units.
    pub fn collar(self) -> u64
        ensures { result ≡ self.collar }
    {
        self.collar
    }

    // The limit of a stop's order: stop - collar for a sell, or the lowest price; stop + collar for a buy.
    pub fn limit_for(self, side: Side, stop: u64) -> TwoWords
        ensures result_value { number_of result ≡ limit_for self.collar side stop }
        ensures low_bound { result.low < 2 ^ 64 }
    {
        let collar = self.collar;
        match side {
            Side::Sell => {
                let mut low = Self::LOWEST_PRICE;
                if collar < stop {
                    low = stop - collar;
                }
                TwoWords { high: 0, low: low }
            }
            Side::Buy => TwoWords::sum(stop, collar),
        }
    }

    // The same from a stop price to a limit price.
    pub fn limit_price(self, side: Side, stop_price: Price) -> LimitPrice
        ensures result_value { number_of result.0 ≡ limit_for self.collar side stop_price.0 }
        ensures low_bound { result.0.low < 2 ^ 64 }
    {
        LimitPrice(self.limit_for(side, stop_price.0))
    }

    // Whether the collar is a multiple of the tick, or the tick is 0, which is none. Refused: it is not (18).
    pub fn check_tick_size(self, tick_size: u64) -> Result<(), Refusal>
        ensures { told_answer result ≡ check_tick_size self.collar tick_size }
    {
        if pricelevel::on_tick(tick_size, self.collar) {
            return Ok(());
        }
        Err(Refusal::CollarOffTick)
    }
}

// The limit of a stop's order under a book's protection, perhaps none: no collar, no limit.
pub fn limit_under(
    protection: Option<StopProtection>,
    side: Side,
    stop_price: Price,
) -> Option<LimitPrice>
    ensures { result ≡ limit_under protection side stop_price }
{
    let Some(collar) = protection else {
        return None;
    };
    Some(collar.limit_price(side, stop_price))
}
