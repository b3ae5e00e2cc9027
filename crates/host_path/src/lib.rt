// The print path for hosts, as four words. `yubtomiq` says what each call does.
#![tactic(auto)]

ghost use Rattle.std.specs.Prelude.{◌≡◌};
ghost use Rattle.host_words.specs.Answers.{Told, number, segment_words};
ghost use Rattle.host_words.specs.ByWords.{record_by_words, take_by_words, reset_by_words};

use host_words::UNKNOWN;
use path_words::{last_price_of, path_known, path_of, path_words, segment_words};
use pricelevel::Price;

pub fn record_print(path: &mut [u64; 4], pending: u64, prev: &[u64; 2], price: u64) -> u64
    ensures { let o = record_by_words pending prev.now price path.old in
        (result ≡ number o.answer)
        × (path.new ≡ o.path) }
{
    if !path_known(path) {
        return UNKNOWN;
    }
    let before = path_of(path);
    let after = print_path::recorded(before, pending, last_price_of(prev), Price(price));
    *path = path_words(after);
    0
}

pub fn take_path(path: &mut [u64; 4], trade: &[u64; 2], answer: &mut [u64; 5]) -> u64
    ensures { let o = take_by_words trade.now path.old in
        Told segment_words o.answer answer.old result answer.new
        × (path.new ≡ o.path) }
{
    if !path_known(path) {
        return UNKNOWN;
    }
    let before = path_of(path);
    let last = last_price_of(trade);
    let taken = print_path::taken(before, last);
    let after = taken.path;
    *path = path_words(after);
    let next = taken.segment;
    *answer = segment_words(next);
    0
}

pub fn reset_path(path: &mut [u64; 4]) -> u64
    ensures { let o = reset_by_words path.old in
        (result ≡ number o.answer)
        × (path.new ≡ o.path) }
{
    if !path_known(path) {
        return UNKNOWN;
    }
    let open = path_of(path);
    let after = print_path::closed(open);
    *path = path_words(after);
    0
}
