// Which side a print serves first, and whether it falls.
#![tactic(auto)]

ghost use Rattle.std.specs.Prelude.{◌≡◌};
ghost use Rattle.book.specs.Steps.{other, first_side};
ghost use Rattle.book.specs.Evaluation.{sells_first, falls_to};

use pricelevel::{Price, Side};

// ---------------------------------------------------------------------
// The steps of a point

// The other side.
pub fn other(side: Side) -> Side
    ensures { result ≡ other side }
{
    match side {
        Side::Buy => Side::Sell,
        Side::Sell => Side::Buy,
    }
}

// ---------------------------------------------------------------------
// A point

// The side whose elected leave first.
pub fn first_side(sells: bool) -> Side
    ensures { result ≡ first_side sells }
{
    if sells {
        return Side::Sell;
    }
    Side::Buy
}

// Whether a run from one price to another falls; one that stays does.
pub fn falls_to(first: Price, last: Price) -> bool
    ensures { result ≡ falls_to first last }
{
    last.0 <= first.0
}

// Whether the sells come first at a price, given whether the run falls and the price that it arrived from.
pub fn sells_first(falls: bool, from: Option<Price>, price: Price) -> bool
    ensures { result ≡ sells_first falls from price }
{
    let Some(last) = from else {
        return falls;
    };
    if last.0 == price.0 {
        return falls;
    }
    price.0 < last.0
}
