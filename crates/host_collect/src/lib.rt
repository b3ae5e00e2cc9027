// Collect and mass cancel for hosts: every argument as words. `yubtomiq` says what each call does.
#![tactic(auto)]

ghost use Rattle.std.specs.Prelude.{map, ◌≡◌, length};
ghost use Rattle.book.specs.Calls.{written};
ghost use Rattle.book.specs.Entries.{stop_words};
ghost use Rattle.host_words.specs.Answers.{Told, listed_words};
ghost use Rattle.host_words.specs.ByWords.{collect_by_words, mass_cancel_by_words};

use book::StopWords;
use collect_words::{selector_known, selector_of};
use host_words::{SelectorWords, UNKNOWN};

pub fn collect(
    s: &[u64],
    selector: &SelectorWords,
    list: &mut [StopWords],
    answer: &mut [u64; 1],
) -> u64
    ensures { let o = collect_by_words selector.now s.now (length list.old) in
        Told listed_words o.answer answer.old result answer.new
        × (list.new ≡ written (map stop_words o.listed) list.old) }
{
    if !selector_known(selector) {
        return UNKNOWN;
    }
    let collected = collect::collect(s, selector_of(selector), list);
    answer_words::answer(collected, answer)
}

pub fn mass_cancel(
    s: &mut [u64],
    selector: &SelectorWords,
    list: &mut [StopWords],
    answer: &mut [u64; 1],
) -> u64
    ensures { let o = mass_cancel_by_words selector.now s.old (length list.old) in
        Told listed_words o.answer answer.old result answer.new
        × (s.new ≡ o.words)
        × (list.new ≡ written (map stop_words o.listed) list.old) }
{
    if !selector_known(selector) {
        return UNKNOWN;
    }
    let cancelled = mass_cancel::mass_cancel(s, selector_of(selector), list);
    answer_words::answer(cancelled, answer)
}
