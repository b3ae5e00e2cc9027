// Segment, step and walk for hosts: every argument as words.
#![tactic(auto)]

ghost use Rattle.std.specs.Prelude.{map, ◌≡◌, length};
ghost use Rattle.book.specs.Calls.{written};
ghost use Rattle.book.specs.Entries.{elected_words, moved_words};
ghost use Rattle.host_words.specs.Answers.{Told, counts_words};
ghost use Rattle.host_words.specs.ByWords.{segment_by_words, step_by_words, walk_by_words};

use book::{ElectedWords, MovedWords};
use evaluation_words::settings_of;
use path_words::{last_price_of, prints_of};
use pricelevel::Price;

// A segment, which lists the elected and the moved, and answers how many moves and elected there were. Refused: 1, 14.
pub fn segment(
    s: &mut [u64],
    settings: &[u64; 4],
    prints: &[u64; 4],
    elected: &mut [ElectedWords],
    moved: &mut [MovedWords],
    answer: &mut [u64; 2],
) -> u64
    ensures { let o = segment_by_words settings.now prints.now s.old (length elected.old)
        (length moved.old) in
        Told counts_words o.answer answer.old result answer.new
        × (s.new ≡ o.words)
        × (elected.new ≡ written (map elected_words o.elected) elected.old)
        × (moved.new ≡ written (map moved_words o.moved) moved.old) }
{
    let of = settings_of(settings);
    let over = prints_of(prints);
    let evaluated = evaluate_segment::segment(s, of, over, elected, moved);
    answer_words::answer(evaluated, answer)
}

// A step of a walk: a point at a price, arrived from another, of a run that falls as a whole (any word but 0) or does not.
// Lists the elected and the moved, and answers how many moves and elected there were. Refused: 1, 14.
pub fn step(
    s: &mut [u64],
    settings: &[u64; 4],
    falls: u64,
    from: &[u64; 2],
    price: u64,
    elected: &mut [ElectedWords],
    moved: &mut [MovedWords],
    answer: &mut [u64; 2],
) -> u64
    ensures { let o = step_by_words settings.now falls from.now price s.old (length elected.old)
        (length moved.old) in
        Told counts_words o.answer answer.old result answer.new
        × (s.new ≡ o.words)
        × (elected.new ≡ written (map elected_words o.elected) elected.old)
        × (moved.new ≡ written (map moved_words o.moved) moved.old) }
{
    let of = settings_of(settings);
    let before = last_price_of(from);
    let evaluated = evaluate_step::step(s, of, falls != 0, before, Price(price), elected, moved);
    answer_words::answer(evaluated, answer)
}

// A walk, which lists the elected, and answers how many moves and elected there were. Refused: 1, 14, 16.
pub fn walk(
    s: &mut [u64],
    settings: &[u64; 4],
    prev: &[u64; 2],
    prices: &[u64],
    elected: &mut [ElectedWords],
    answer: &mut [u64; 2],
) -> u64
    ensures { let o = walk_by_words settings.now prev.now prices.now s.old (length elected.old) in
        Told counts_words o.answer answer.old result answer.new
        × (s.new ≡ o.words)
        × (elected.new ≡ written (map elected_words o.elected) elected.old) }
{
    let of = settings_of(settings);
    let before = last_price_of(prev);
    let evaluated = evaluate_walk::walk(s, of, before, prices, elected);
    answer_words::answer(evaluated, answer)
}
