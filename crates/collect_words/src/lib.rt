// The words of a selector, and of what a call that lists stops answers.
#![tactic(auto)]

ghost use Rattle.std.specs.Prelude.{◌≡◌};
ghost use Rattle.host_words.specs.Arguments.{selector_known, selector_of};

use book::Selector;
use host_words::SelectorWords;
use pricelevel::{Holder, Price};
use stored_stops::side_from;
use term_words::side_known;

pub fn selector_known(w: &SelectorWords) -> bool
    ensures { result ≡ selector_known w.now }
{
    let of_side = w[0] == 1;
    if of_side {
        return side_known(w[1]);
    }
    w[0] <= 2
}

// Which stops, and the holder, the side, or the lowest and the highest price.
pub fn selector_of(w: &SelectorWords) -> Selector
    ensures { result ≡ selector_of w.now }
{
    let holder = Holder(w[1], w[2], w[3], w[4]);
    let lowest = Price(w[1]);
    let highest = Price(w[2]);
    match w[0] {
        0 => Selector::ByHolder(holder),
        1 => Selector::BySide(side_from(w[1])),
        _ => Selector::ByPriceRange(lowest, highest),
    }
}
