// Asking what a segment would do, and committing it later, for hosts: every argument as words.
#![tactic(auto)]

ghost use Rattle.std.specs.Prelude.{map, ◌≡◌, length};
ghost use Rattle.book.specs.Calls.{written};
ghost use Rattle.book.specs.Entries.{elected_words, moved_words};
ghost use Rattle.host_words.specs.Answers.{Told, counts_words};
ghost use Rattle.host_words.specs.ByWords.{ask_by_words, commit_by_words};

use book::{ElectedWords, MovedWords};
use evaluation_words::settings_of;
use path_words::prints_of;

// Lists what a segment would elect and move, and answers how many moves and elected there would be. The store is only
// read. Refused: 1, 14.
pub fn ask_segment(
    s: &[u64],
    settings: &[u64; 4],
    prints: &[u64; 4],
    elected: &mut [ElectedWords],
    moved: &mut [MovedWords],
    answer: &mut [u64; 2],
) -> u64
    ensures { let o = ask_by_words settings.now prints.now s.now (length elected.old)
        (length moved.old) in
        Told counts_words o.answer answer.old result answer.new
        × (elected.new ≡ written (map elected_words o.elected) elected.old)
        × (moved.new ≡ written (map moved_words o.moved) moved.old) }
{
    let of = settings_of(settings);
    let over = prints_of(prints);
    let asked = evaluate_ask::ask_segment(s, of, over, elected, moved);
    answer_words::answer(asked, answer)
}

// Does the segment, if the store of this moment gives the lists that are handed in, in length and every word, and answers
// how many moves and elected there were. Refused: 1, 20.
pub fn commit_segment(
    s: &mut [u64],
    settings: &[u64; 4],
    prints: &[u64; 4],
    elected: &[ElectedWords],
    moved: &[MovedWords],
    answer: &mut [u64; 2],
) -> u64
    ensures { let o = commit_by_words settings.now prints.now elected.now moved.now s.old in
        Told counts_words o.answer answer.old result answer.new
        × (s.new ≡ o.words) }
{
    let of = settings_of(settings);
    let over = prints_of(prints);
    let committed = evaluate_commit::commit_segment(s, of, over, elected, moved);
    answer_words::answer(committed, answer)
}
