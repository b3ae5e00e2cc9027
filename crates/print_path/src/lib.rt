// The print path by value: the recorder of a sweep's first print, from orderbook-rs's stop_orders.rs. Each call answers
// the path after it.
#![tactic(auto)]

ghost use Rattle.std.specs.Prelude.{◌≡◌};
ghost use Rattle.book.specs.Path.{opened, recorded, closed, prev_of, last_or, segment_of, take};

use book::{PrintPath, PrintSegment};
use pricelevel::Price;

// A path open at a print, with the price before it.
fn opened(prev: Option<Price>, price: Price) -> PrintPath
    ensures { result ≡ opened prev price }
{
    let Some(from) = prev else {
        return PrintPath {
            open: true,
            has_prev: false,
            prev: Price(0),
            first: price,
        };
    };
    PrintPath {
        open: true,
        has_prev: true,
        prev: from,
        first: price,
    }
}

// The path after a print, given how many stops are pending: a sweep's first print opens it, if there are any.
pub fn recorded(path: PrintPath, pending: u64, prev: Option<Price>, price: Price) -> PrintPath
    ensures { result ≡ recorded pending prev price path }
{
    if pending == 0 {
        return path;
    }
    if path.open {
        return path;
    }
    opened(prev, price)
}

// The path after a reset, which only closes it.
pub fn closed(path: PrintPath) -> PrintPath
    ensures { result ≡ closed path }
{
    let prev = path.prev;
    let first = path.first;
    PrintPath {
        open: false,
        has_prev: path.has_prev,
        prev: prev,
        first: first,
    }
}

// The price before the first print.
fn prev_of(path: PrintPath) -> Option<Price>
    ensures { result ≡ prev_of path }
{
    let prev = path.prev;
    if path.has_prev {
        return Some(prev);
    }
    None
}

// The last trade, or the first print if there is none.
fn last_or(first: Price, trade: Option<Price>) -> Price
    ensures { result ≡ last_or first trade }
{
    let Some(price) = trade else {
        return first;
    };
    price
}

// The segment of an open path, up to the last trade.
pub fn segment_of(path: PrintPath, trade: Option<Price>) -> PrintSegment
    ensures { result ≡ segment_of path trade }
{
    let first = path.first;
    PrintSegment {
        prev: prev_of(path),
        first: first,
        last: last_or(first, trade),
    }
}

// What taking the segment of a path answers, and the path after it.
#[derive(Clone, Copy)]
pub struct TakenSegment {
    pub segment: Option<PrintSegment>,
    pub path: PrintPath,
}

// Takes the segment of a path, up to the last trade, and closes it.
pub fn taken(path: PrintPath, trade: Option<Price>) -> TakenSegment
    ensures segment_value { result.segment ≡ (take path trade).segment }
    ensures path_value { result.path ≡ (take path trade).path }
{
    let after = closed(path);
    if path.open {
        return TakenSegment {
            segment: Some(segment_of(path, trade)),
            path: after,
        };
    }
    TakenSegment {
        segment: None,
        path: after,
    }
}
