// The words of the print path and of prices that may be absent: whether they are known, what they stand for, and those
// of a segment.
#![tactic(auto)]

ghost use Rattle.std.specs.Prelude.{◌≡◌};
ghost use Rattle.host_words.specs.Arguments.{last_price_from, last_price_of, prints_of, path_known, path_of};
ghost use Rattle.host_words.specs.Answers.{flag, path_words, segment_words};

use book::{PrintPath, PrintSegment};
use pricelevel::Price;

// ---------------------------------------------------------------------
// Prices and the print path

// A price that may be absent.
fn last_price_from(present: u64, price: u64) -> Option<Price>
    ensures { result ≡ last_price_from present price }
{
    let absent = present == 0;
    if absent {
        return None;
    }
    Some(Price(price))
}

// Present, price.
pub fn last_price_of(w: &[u64; 2]) -> Option<Price>
    ensures { result ≡ last_price_of w.now }
{
    last_price_from(w[0], w[1])
}

// Prev present, prev, first, last.
pub fn prints_of(w: &[u64; 4]) -> PrintSegment
    ensures { result ≡ prints_of w.now }
{
    PrintSegment {
        prev: last_price_from(w[0], w[1]),
        first: Price(w[2]),
        last: Price(w[3]),
    }
}

pub fn path_known(w: &[u64; 4]) -> bool
    ensures { result ≡ path_known w.now }
{
    let open = w[0] <= 1;
    if open {
        return w[1] <= 1;
    }
    false
}

// Open, prev present, prev, first.
pub fn path_of(w: &[u64; 4]) -> PrintPath
    ensures { result ≡ path_of w.now }
{
    PrintPath {
        open: w[0] != 0,
        has_prev: w[1] != 0,
        prev: Price(w[2]),
        first: Price(w[3]),
    }
}

// ---------------------------------------------------------------------
// Words

pub fn flag(on: bool) -> u64
    ensures { result ≡ flag on }
{
    if on { 1 } else { 0 }
}

pub fn path_words(path: PrintPath) -> [u64; 4]
    ensures { result ≡ path_words path }
{
    [
        flag(path.open),
        flag(path.has_prev),
        path.prev.0,
        path.first.0,
    ]
}

pub fn segment_words(next: Option<PrintSegment>) -> [u64; 5]
    ensures { result ≡ segment_words next }
{
    match next {
        None => [0, 0, 0, 0, 0],
        Some(prints) => {
            let prev = prints.prev;
            match prev {
                None => [1, 0, 0, prints.first.0, prints.last.0],
                Some(at) => [1, 1, at.0, prints.first.0, prints.last.0],
            }
        }
    }
}
