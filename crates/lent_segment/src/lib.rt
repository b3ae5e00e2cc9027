// A segment over lent lists of records: what it elects and moves is written as words into local arrays, and from there
// into the lists.
#![tactic(auto)]

ghost use Rattle.std.specs.Prelude.{map, ◌≡◌, length};
ghost use Rattle.error.specs.Answer.{told_answer};
ghost use Rattle.book.specs.Calls.{written, segment_call};
ghost use Rattle.book.specs.Entries.{moved_words};

use book::{
    Counts, ELECTED_WORDS, Elected, MOST_MOVES, MOST_RECORDS, MOVED_WORDS, Moved, MovedWords,
    PrintSegment, Settings,
};
use copying::least;
use error::Refusal;
use lent_lists::fill;
use word_rooms::{elected_count, moved_count};

// A segment with the words of what it moves.
fn segment_moving(
    s: &mut [u64],
    settings: Settings,
    prints: PrintSegment,
    moved: &mut [MovedWords],
    elected: &mut [Elected],
) -> Result<Counts, Refusal>
    ensures { let o = segment_call settings prints s.old (length elected.old) (length moved.old) in
        (told_answer result ≡ o.answer)
        × (s.new ≡ o.words)
        × (moved.new ≡ written (map moved_words o.moved) moved.old)
        × (elected.new ≡ written o.elected elected.old) }
{
    let mut words = [[0u64; ELECTED_WORDS]; MOST_RECORDS];
    let room = least(elected.len(), MOST_RECORDS);
    let answer = evaluate_segment::segment(s, settings, prints, &mut words[..room], moved);
    fill(elected, &words, elected_count(answer));
    answer
}

// A segment: a point at its first print, and one at its last if that differs. The elected and the moved are written
// from the start of the lists; later entries stay. Refused: the store is not well formed (1); a list is shorter than
// the pending count asks (14).
pub fn segment(
    s: &mut [u64],
    settings: Settings,
    prints: PrintSegment,
    elected: &mut [Elected],
    moved: &mut [Moved],
) -> Result<Counts, Refusal>
    ensures { let o = segment_call settings prints s.old (length elected.old) (length moved.old) in
        (told_answer result ≡ o.answer)
        × (s.new ≡ o.words)
        × (elected.new ≡ written o.elected elected.old)
        × (moved.new ≡ written o.moved moved.old) }
{
    let mut words = [[0u64; MOVED_WORDS]; MOST_MOVES];
    let room = least(moved.len(), MOST_MOVES);
    let answer = segment_moving(s, settings, prints, &mut words[..room], elected);
    fill(moved, &words, moved_count(answer));
    answer
}
