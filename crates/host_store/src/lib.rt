// Layout, form check, totals and clear for hosts: every argument as words. `yubtomiq` says what each call does.
#![tactic(auto)]

ghost use Rattle.std.specs.Prelude.{◌≡◌};
ghost use Rattle.error.specs.Answer.{told_answer};
ghost use Rattle.book.specs.Store.{lay_out, pending_quantity};
ghost use Rattle.book.specs.Words.{well_formed};
ghost use Rattle.host_words.specs.Answers.{Told, number, flag, totals_words};
ghost use Rattle.host_words.specs.ByWords.{clear_by_words};

use error::Refusal;
use host_words::UNKNOWN;
use path_words::{flag, path_known, path_of, path_words};

fn of_layout(r: Result<(), Refusal>) -> u64
    ensures { result ≡ number (told_answer r) }
{
    match r {
        Ok(()) => 0,
        Err(e) => e.number(),
    }
}

pub fn layout_store(s: &mut [u64], n: u64, tick: u64) -> u64
    ensures { let o = lay_out n tick s.old in
        (result ≡ number o.answer)
        × (s.new ≡ o.words) }
{
    of_layout(store_layout::layout_store(s, n, tick))
}

pub fn well_formed(s: &[u64]) -> u64
    ensures { result ≡ flag (well_formed s.now) }
{
    flag(form::well_formed(s))
}

pub fn pending_stop_quantity(s: &[u64], answer: &mut [u64; 4]) -> u64
    ensures { Told totals_words (pending_quantity s.now) answer.old result answer.new }
{
    answer_words::answer(store_calls::pending_stop_quantity(s), answer)
}

pub fn clear(s: &mut [u64], path: &mut [u64; 4]) -> u64
    ensures { let o = clear_by_words s.old path.old in
        (result ≡ number o.answer)
        × (s.new ≡ o.words)
        × (path.new ≡ o.path) }
{
    if !path_known(path) {
        return UNKNOWN;
    }
    let before = path_of(path);
    let cleared = store_calls::clear(s, before);
    let after = cleared.path;
    *path = path_words(after);
    let given = cleared.answer;
    of_layout(given)
}
