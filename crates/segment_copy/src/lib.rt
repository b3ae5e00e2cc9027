// A segment on a copy of a store, which is only read: what it answers and lists, and the words that it would leave.
#![tactic(auto)]

ghost use Rattle.std.specs.Prelude.{min, ◌++◌, map, ◌≡◌, length, take, drop};
ghost use Rattle.error.specs.Answer.{told_answer};
ghost use Rattle.book.specs.Calls.{written, segment_call};
ghost use Rattle.book.specs.Entries.{elected_words, moved_words};
ghost use Rattle.book.specs.Sizes.{most_words};

use book::{Counts, ElectedWords, MovedWords, PrintSegment, STORE_WORDS, Settings};
use copying::copy_start;
use error::Refusal;
use evaluate_segment::segment;

// Room for a copy of the largest store.
pub fn store_room() -> [u64; STORE_WORDS]
    ensures { length result ≡ most_words }
{
    [0; STORE_WORDS]
}

// What a segment on a copy answers, and how many words of the store were copied.
#[derive(Clone, Copy)]
pub struct OnCopy {
    pub answer: Result<Counts, Refusal>,
    pub many: usize,
}

// A segment on a copy of the store's words, all of which a store can need. The elected and the moved are written from the
// start of the lists; later entries stay. The words that the segment would leave are those of the copy, and behind them
// the store's own.
pub fn segment_on_copy(
    s: &[u64],
    copied: &mut [u64],
    settings: Settings,
    prints: PrintSegment,
    elected: &mut [ElectedWords],
    moved: &mut [MovedWords],
) -> OnCopy
    requires { length copied.old ≡ most_words }
    ensures { let o = segment_call settings prints s.now (length elected.old) (length moved.old) in
        (told_answer result.answer ≡ o.answer)
        × (result.many ≡ min most_words (length s.now))
        × (take result.many copied.new ++ drop result.many s.now ≡ o.words)
        × (elected.new ≡ written (map elected_words o.elected) elected.old)
        × (moved.new ≡ written (map moved_words o.moved) moved.old) }
{
    let many = copy_start(copied, s);
    let answer = segment(&mut copied[..many], settings, prints, elected, moved);
    OnCopy {
        answer: answer,
        many: many,
    }
}
