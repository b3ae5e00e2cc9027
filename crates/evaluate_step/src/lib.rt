// The step over a store of pending stops: its questions in their order, then a point at one price of a run, told where
// the run comes from and whether it falls as a whole. A refused call alters nothing.
#![tactic(auto)]

ghost use Rattle.std.specs.Prelude.{map, ◌≡◌, length};
ghost use Rattle.book.specs.Calls.{written};
ghost use Rattle.book.specs.StepCall.{step_questions, step_call};
ghost use Rattle.error.specs.Questions.{first_no};
ghost use Rattle.error.specs.Verdict.{told_verdict};
ghost use Rattle.error.specs.Answer.{told_answer};
ghost use Rattle.book.specs.Entries.{elected_words, moved_words};

use book::{Counts, ElectedWords, MovedWords, Settings};
use children::complete;
use error::{Ask, Refusal};
use form::well_formed;
use points::point;
use pricelevel::Price;
use segments::list_moves;
use side_order::sells_first;

// The questions of a step: 1, 14.
fn ask_step(s: &[u64], elected: usize, moved: usize) -> Result<(), Refusal>
    ensures { told_verdict result ≡ first_no (step_questions s.now elected moved) }
{
    if !well_formed(s) {
        return Err(Refusal::StoreNotWellFormed);
    }
    let count = s[1] as usize;
    Ok(())
        .ask(elected >= count, Refusal::ListTooShort)
        .ask(moved >= count, Refusal::ListTooShort)
}

// A step: a point at a price, arrived from another, of a run that falls from its first price to its last, or does not;
// one that ends where it began falls. The elected and the moved are written from the start of the lists; later entries
// stay. Refused: the store is not well formed (1); a list is shorter than the pending count (14).
pub fn step(
    s: &mut [u64],
    settings: Settings,
    falls: bool,
    from: Option<Price>,
    price: Price,
    elected: &mut [ElectedWords],
    moved: &mut [MovedWords],
) -> Result<Counts, Refusal>
    ensures { let o = step_call settings falls from price s.old (length elected.old) (length moved.old) in
        (told_answer result ≡ o.answer)
        × (s.new ≡ o.words)
        × (elected.new ≡ written (map elected_words o.elected) elected.old)
        × (moved.new ≡ written (map moved_words o.moved) moved.old) }
{
    ask_step(&s[..], elected.len(), moved.len())?;
    let n = s[0];
    let sells = sells_first(falls, from, price);
    list_moves(&s[..], n, price, moved, 0);
    let o = point(s, n, settings.kill, sells, price, elected, 0);
    complete(&s[..], n, settings, elected, 0, o.at);
    Ok(Counts {
        moves: o.moves,
        elected: o.at as u64,
    })
}
