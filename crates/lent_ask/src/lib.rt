// Asking what a segment would do, with lent lists of records: a segment on a copy of the store, which is only read.
#![tactic(auto)]

ghost use Rattle.std.specs.Prelude.{◌≡◌, length};
ghost use Rattle.error.specs.Answer.{told_answer};
ghost use Rattle.book.specs.Calls.{written};
ghost use Rattle.book.specs.Commit.{ask_call};

use book::{Counts, Elected, Moved, PrintSegment, STORE_WORDS, Settings};
use copying::copy_start;
use error::Refusal;
use lent_segment::segment;

// What a segment would elect and move: both are written from the start of the lists; later entries stay, and so does the
// store. Refused: the store is not well formed (1); a list is shorter than the pending count asks (14).
pub fn ask_segment(
    s: &[u64],
    settings: Settings,
    prints: PrintSegment,
    elected: &mut [Elected],
    moved: &mut [Moved],
) -> Result<Counts, Refusal>
    ensures { let o = ask_call settings prints s.now (length elected.old) (length moved.old) in
        (told_answer result ≡ o.answer)
        × (elected.new ≡ written o.elected elected.old)
        × (moved.new ≡ written o.moved moved.old) }
{
    let mut copied = [0u64; STORE_WORDS];
    let many = copy_start(&mut copied, s);
    segment(&mut copied[..many], settings, prints, elected, moved)
}
