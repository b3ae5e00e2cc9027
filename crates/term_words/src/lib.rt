// The words of an identity, a side, terms and a holder: whether each value is known, what they stand for, and back.
#![tactic(auto)]

ghost use Rattle.std.specs.Prelude.{◌≡◌};
ghost use Rattle.host_words.specs.Arguments.{id_known, id_of, side_known, terms_known, terms_of, holder_from};
ghost use Rattle.host_words.specs.Answers.{id_words, terms_words};

use host_words::HolderWords;
use pricelevel::{Holder, Id, Price};
use stop_terms::StopTerms;
use stored_stops::{kind_of, side_from};

// ---------------------------------------------------------------------
// Identity, side and terms

pub fn id_known(w: &[u64; 3]) -> bool
    ensures { result ≡ id_known w.now }
{
    w[0] <= 2
}

// Kind, high, low.
pub fn id_of(w: &[u64; 3]) -> Id
    ensures { result ≡ id_of w.now }
{
    Id {
        kind: kind_of(w[0]),
        high: w[1],
        low: w[2],
    }
}

pub fn side_known(side: u64) -> bool
    ensures { result ≡ side_known side }
{
    side <= 1
}

pub fn terms_known(w: &[u64; 4]) -> bool
    ensures { result ≡ terms_known w.now }
{
    side_known(w[0])
}

// Side, stop, watermark, trail.
pub fn terms_of(w: &[u64; 4]) -> StopTerms
    ensures { result ≡ terms_of w.now }
{
    StopTerms {
        side: side_from(w[0]),
        stop: Price(w[1]),
        watermark: Price(w[2]),
        trail: w[3],
    }
}

pub fn holder_of(w: &HolderWords) -> Holder
    ensures { result ≡ holder_from w.now }
{
    Holder(w[0], w[1], w[2], w[3])
}

// ---------------------------------------------------------------------
// Words

pub fn id_words(id: Id) -> [u64; 3]
    ensures { result ≡ id_words id }
{
    let kind = id.kind;
    [kind.number() as u64, id.high, id.low]
}

pub fn terms_words(t: StopTerms) -> [u64; 4]
    ensures { result ≡ terms_words t }
{
    let side = t.side;
    [side.number() as u64, t.stop.0, t.watermark.0, t.trail]
}
