// A step over lent lists of records: what it elects and moves is written as words into local arrays, and from there into
// the lists.
#![tactic(auto)]

ghost use Rattle.std.specs.Prelude.{map, ◌≡◌, length};
ghost use Rattle.error.specs.Answer.{told_answer};
ghost use Rattle.book.specs.Calls.{written};
ghost use Rattle.book.specs.Entries.{elected_words, moved_words};
ghost use Rattle.book.specs.StepCall.{step_call};

use book::{
    Counts, ELECTED_WORDS, Elected, ElectedWords, MOST_MOVES, MOST_RECORDS, MOVED_WORDS, Moved,
    MovedWords, Settings,
};
use copying::least;
use error::Refusal;
use lent_lists::fill;
use pricelevel::Price;
use word_rooms::{elected_count, moved_count};

// One print of a run: whether the run falls as a whole, where it comes from, and the print.
#[derive(Clone, Copy)]
pub struct PrintStep {
    pub falls: bool,
    pub from: Option<Price>,
    pub price: Price,
}

// A step with the words of both lists.
fn step_words(
    s: &mut [u64],
    settings: Settings,
    print: PrintStep,
    elected: &mut [ElectedWords],
    moved: &mut [MovedWords],
) -> Result<Counts, Refusal>
    ensures { let o = step_call settings print.falls print.from print.price s.old (length elected.old) (length moved.old) in
        (told_answer result ≡ o.answer)
        × (s.new ≡ o.words)
        × (elected.new ≡ written (map elected_words o.elected) elected.old)
        × (moved.new ≡ written (map moved_words o.moved) moved.old) }
{
    let falls = print.falls;
    let from = print.from;
    let price = print.price;
    evaluate_step::step(s, settings, falls, from, price, elected, moved)
}

// A step with the words of what it moves.
fn step_moving(
    s: &mut [u64],
    settings: Settings,
    print: PrintStep,
    moved: &mut [MovedWords],
    elected: &mut [Elected],
) -> Result<Counts, Refusal>
    ensures { let o = step_call settings print.falls print.from print.price s.old (length elected.old) (length moved.old) in
        (told_answer result ≡ o.answer)
        × (s.new ≡ o.words)
        × (moved.new ≡ written (map moved_words o.moved) moved.old)
        × (elected.new ≡ written o.elected elected.old) }
{
    let mut words = [[0u64; ELECTED_WORDS]; MOST_RECORDS];
    let room = least(elected.len(), MOST_RECORDS);
    let answer = step_words(s, settings, print, &mut words[..room], moved);
    fill(elected, &words, elected_count(answer));
    answer
}

// A step: a point at a print, arrived from another price, of a run that falls from its first price to its last, or does
// not; one that ends where it began falls. The elected and the moved are written from the start of the lists; later
// entries stay. Refused: the store is not well formed (1); a list is shorter than the pending count (14).
pub fn step(
    s: &mut [u64],
    settings: Settings,
    print: PrintStep,
    elected: &mut [Elected],
    moved: &mut [Moved],
) -> Result<Counts, Refusal>
    ensures { let o = step_call settings print.falls print.from print.price s.old (length elected.old) (length moved.old) in
        (told_answer result ≡ o.answer)
        × (s.new ≡ o.words)
        × (elected.new ≡ written o.elected elected.old)
        × (moved.new ≡ written o.moved moved.old) }
{
    let mut words = [[0u64; MOVED_WORDS]; MOST_MOVES];
    let room = least(moved.len(), MOST_MOVES);
    let answer = step_moving(s, settings, print, &mut words[..room], elected);
    fill(moved, &words, moved_count(answer));
    answer
}
