// The preview of a trailing stop, from orderbook-rs's repricing.rs: the stop price that a market price leads to. It
// reports only moves of the stop, so that a caller who takes the watermark from it falls behind the pending stop's own;
// the stop itself stays the pending stop's, price by price (proofs/Previewed, document 02, Two).
#![tactic(auto)]

ghost use Rattle.std.specs.Prelude.{◌≡◌};
ghost use Rattle.repricing.specs.Preview.{preview};

use pricelevel::{Price, Side};

// The new stop price and the new reference price.
#[derive(Clone, Copy)]
pub struct Adjustment {
    pub stop: Price,
    pub reference: Price,
}

// The adjustment of a trailing stop, if the market price is past the last reference price and the stop improves.
pub fn calculate_trailing_stop_price(
    side: Side,
    current_stop_price: Price,
    trail_amount: u64,
    last_reference_price: Price,
    current_market_price: Price,
) -> Option<Adjustment>
    ensures { result ≡ preview side current_stop_price trail_amount last_reference_price current_market_price }
{
    if !stop_terms::is_behind(side, last_reference_price, current_market_price) {
        return None;
    }
    let Some(stop) = stop_terms::candidate_at(side, trail_amount, current_market_price) else {
        return None;
    };
    if !stop_terms::is_behind(side, current_stop_price, stop) {
        return None;
    }
    Some(Adjustment {
        stop: stop,
        reference: current_market_price,
    })
}
