// The segment over a store of pending stops, from orderbook-rs's stop_orders.rs: its questions in their order, then a
// point at each end. A refused call alters nothing.
#![tactic(auto)]

ghost use Rattle.std.specs.Prelude.{map, ◌≡◌, length};
ghost use Rattle.book.specs.Calls.{written, segment_questions, segment_call};
ghost use Rattle.error.specs.Questions.{first_no};
ghost use Rattle.error.specs.Verdict.{told_verdict};
ghost use Rattle.error.specs.Answer.{told_answer};
ghost use Rattle.book.specs.Entries.{elected_words, moved_words};

use book::{Counts, ElectedWords, MovedWords, PrintSegment, Settings};
use children::complete;
use error::{Ask, Refusal};
use form::well_formed;
use segments::segment_listed;

// The questions of a segment: 1, 14.
fn ask_segment(s: &[u64], elected: usize, moved: usize) -> Result<(), Refusal>
    ensures { told_verdict result ≡ first_no (segment_questions s.now elected moved) }
{
    if !well_formed(s) {
        return Err(Refusal::StoreNotWellFormed);
    }
    let count = s[1] as usize;
    Ok(())
        .ask(elected >= count, Refusal::ListTooShort)
        .ask(moved >= 2 * count, Refusal::ListTooShort)
}

// A segment: a point at its first print, and one at its last if that differs. The elected and the moved are written
// from the start of the lists; later entries stay. Refused: the store is not well formed (1); a list is shorter than
// the pending count asks (14).
pub fn segment(
    s: &mut [u64],
    settings: Settings,
    prints: PrintSegment,
    elected: &mut [ElectedWords],
    moved: &mut [MovedWords],
) -> Result<Counts, Refusal>
    ensures { let o = segment_call settings prints s.old (length elected.old) (length moved.old) in
        (told_answer result ≡ o.answer)
        × (s.new ≡ o.words)
        × (elected.new ≡ written (map elected_words o.elected) elected.old)
        × (moved.new ≡ written (map moved_words o.moved) moved.old) }
{
    ask_segment(&s[..], elected.len(), moved.len())?;
    let n = s[0];
    let o = segment_listed(s, n, settings.kill, prints, elected, moved);
    complete(&s[..], n, settings, elected, 0, o.at);
    Ok(Counts {
        moves: o.moves,
        elected: o.at as u64,
    })
}
