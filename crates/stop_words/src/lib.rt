// The words of a stop, as a call answers it, and of a change.
#![tactic(auto)]

ghost use Rattle.std.specs.Prelude.{◌≡◌};
ghost use Rattle.host_words.specs.Arguments.{update_known, update_of};

use book::OrderUpdate;
use pricelevel::{Price, Quantity};
use stored_stops::side_from;
use term_words::side_known;

pub fn update_known(w: &[u64; 4]) -> bool
    ensures { result ≡ update_known w.now }
{
    let kept_side = w[0] <= 2;
    if kept_side {
        return true;
    }
    let replaced = w[0] == 3;
    if replaced {
        return side_known(w[1]);
    }
    false
}

// Change, side, price, quantity.
pub fn update_of(w: &[u64; 4]) -> OrderUpdate
    ensures { result ≡ update_of w.now }
{
    let price = Price(w[2]);
    let quantity = Quantity(w[3]);
    match w[0] {
        0 => OrderUpdate::UpdateQuantity(quantity),
        1 => OrderUpdate::UpdatePrice(price),
        2 => OrderUpdate::UpdatePriceAndQuantity(price, quantity),
        _ => OrderUpdate::Replace(side_from(w[1]), price, quantity),
    }
}
