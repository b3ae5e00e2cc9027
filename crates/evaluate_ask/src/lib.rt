// Asking what a segment would do: its questions, its answer and its lists, by a segment on a copy of the store, which is
// only read.
#![tactic(auto)]

ghost use Rattle.std.specs.Prelude.{map, ◌≡◌, length};
ghost use Rattle.error.specs.Answer.{told_answer};
ghost use Rattle.book.specs.Calls.{written};
ghost use Rattle.book.specs.Commit.{ask_call};
ghost use Rattle.book.specs.Entries.{elected_words, moved_words};

use book::{Counts, ElectedWords, MovedWords, PrintSegment, Settings};
use error::Refusal;
use segment_copy::{segment_on_copy, store_room};

// What a segment would elect and move: both are written from the start of the lists; later entries stay, and so does the
// store. Refused: the store is not well formed (1); a list is shorter than the pending count asks (14).
pub fn ask_segment(
    s: &[u64],
    settings: Settings,
    prints: PrintSegment,
    elected: &mut [ElectedWords],
    moved: &mut [MovedWords],
) -> Result<Counts, Refusal>
    ensures { let o = ask_call settings prints s.now (length elected.old) (length moved.old) in
        (told_answer result ≡ o.answer)
        × (elected.new ≡ written (map elected_words o.elected) elected.old)
        × (moved.new ≡ written (map moved_words o.moved) moved.old) }
{
    let mut copied = store_room();
    let o = segment_on_copy(s, &mut copied, settings, prints, elected, moved);
    o.answer
}
