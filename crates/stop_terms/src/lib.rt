// The trailing parameters of a stop, from orderbook-rs's stop_orders.rs. The watermark follows the trades in the stop's
// favour, up for a sell and down for a buy; the stop tightens to the trail behind it and is elected by a trade at or
// through it.
#![tactic(auto)]

ghost use Rattle.std.specs.Prelude.{◌≡◌};
ghost use Rattle.stop_terms.specs.Terms.{behind, candidate, told_candidate, tightened, trailed_at, elected_at, inconsistency_of};

use pricelevel::{Price, Side};

// Side, stop price, watermark, and the trail: a distance in price units.
#[derive(Clone, Copy)]
pub struct StopTerms {
    pub side: Side,
    pub stop: Price,
    pub watermark: Price,
    pub trail: u64,
}

// What is inconsistent in a stop's terms.
#[derive(Clone, Copy)]
pub enum Inconsistency {
    ZeroTrail,
    SellAboveWatermark,
    BuyBelowWatermark,
}

// Whether one price lies behind another, on the way that stops of this side trail.
pub fn is_behind(side: Side, price: Price, other: Price) -> bool
    ensures { result ≡ behind side price.0 other.0 }
{
    match side {
        Side::Sell => price.0 < other.0,
        Side::Buy => other.0 < price.0,
    }
}

// The stop price that a trade at this price leads to, the trail behind it.
pub fn candidate_at(side: Side, trail: u64, price: Price) -> Option<Price>
    ensures { told_candidate result ≡ candidate side trail price.0 }
{
    match side {
        Side::Sell => {
            if price.0 < trail {
                return None;
            }
            Some(Price(price.0 - trail))
        }
        Side::Buy => {
            if 0xffff_ffff_ffff_ffff - trail < price.0 {
                return None;
            }
            Some(Price(price.0 + trail))
        }
    }
}

impl StopTerms {
    // The terms after a trade at this price. Unchanged where the trade does not improve the watermark; a stop that the
    // trail cannot represent keeps its price, while the watermark still moves.
    pub fn trailed(self, price: Price) -> Self
        ensures { result ≡ trailed_at self price }
    {
        let side = self.side;
        let watermark = self.watermark;
        if !is_behind(side, watermark, price) {
            return self;
        }
        let stop = self.stop;
        StopTerms {
            side: side,
            stop: tighten(side, stop, candidate_at(side, self.trail, price)),
            watermark: price,
            trail: self.trail,
        }
    }

    // Whether a trade at this price elects the stop: at or below a sell stop, at or above a buy stop.
    pub fn elected_by(self, price: Price) -> bool
        ensures { result ≡ elected_at self price }
    {
        let side = self.side;
        match side {
            Side::Sell => price.0 <= self.stop.0,
            Side::Buy => price.0 >= self.stop.0,
        }
    }

    // The first inconsistency in the terms: a zero trail (5), or a stop on the wrong side of its watermark (6).
    pub fn inconsistency(self) -> Option<Inconsistency>
        ensures { result ≡ inconsistency_of self }
    {
        if self.trail == 0 {
            return Some(Inconsistency::ZeroTrail);
        }
        let side = self.side;
        match side {
            Side::Sell => {
                if self.stop.0 > self.watermark.0 {
                    return Some(Inconsistency::SellAboveWatermark);
                }
                None
            }
            Side::Buy => {
                if self.stop.0 < self.watermark.0 {
                    return Some(Inconsistency::BuyBelowWatermark);
                }
                None
            }
        }
    }
}

// The stop price after a candidate: the tighter of the two.
fn tighten(side: Side, stop: Price, at: Option<Price>) -> Price
    ensures { result.0 ≡ tightened side stop.0 (told_candidate at) }
{
    let Some(price) = at else {
        return stop;
    };
    if is_behind(side, stop, price) {
        return price;
    }
    stop
}
