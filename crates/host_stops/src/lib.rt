// Change, cancel and search for hosts: every argument as words. `yubtomiq` says what each call does.
#![tactic(auto)]

ghost use Rattle.std.specs.Prelude.{◌≡◌};
ghost use Rattle.book.specs.Entries.{stop_words};
ghost use Rattle.host_words.specs.Answers.{Told, found_words};
ghost use Rattle.host_words.specs.ByWords.{cancel_by_words, update_by_words, find_by_words};

use book::StopWords;
use host_words::{FoundWords, UNKNOWN};
use path_words::last_price_of;
use stop_words::{update_known, update_of};
use term_words::{id_known, id_of};

pub fn update_pending_stop(
    s: &mut [u64],
    id: &[u64; 3],
    update: &[u64; 4],
    trade: &[u64; 2],
    answer: &mut StopWords,
) -> u64
    ensures { let o = update_by_words id.now update.now trade.now s.old in
        Told stop_words o.answer answer.old result answer.new
        × (s.new ≡ o.words) }
{
    if !id_known(id) {
        return UNKNOWN;
    }
    if !update_known(update) {
        return UNKNOWN;
    }
    let of = id_of(id);
    let change = update_of(update);
    let last = last_price_of(trade);
    let changed = changes::update_pending_stop(s, of, change, last);
    answer_words::answer(changed, answer)
}

pub fn cancel_pending_stop(s: &mut [u64], id: &[u64; 3], answer: &mut StopWords) -> u64
    ensures { let o = cancel_by_words id.now s.old in
        Told stop_words o.answer answer.old result answer.new
        × (s.new ≡ o.words) }
{
    if !id_known(id) {
        return UNKNOWN;
    }
    let of = id_of(id);
    let cancelled = store_calls::cancel_pending_stop(s, of);
    answer_words::answer(cancelled, answer)
}

pub fn pending_stop_order(s: &[u64], id: &[u64; 3], answer: &mut FoundWords) -> u64
    ensures { Told found_words (find_by_words id.now s.now) answer.old result answer.new }
{
    if !id_known(id) {
        return UNKNOWN;
    }
    let of = id_of(id);
    let found = store_calls::pending_stop_order(s, of);
    answer_words::answer(found, answer)
}
