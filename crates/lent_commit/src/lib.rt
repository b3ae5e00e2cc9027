// Committing with lent lists of records: their words are put into local arrays, which have room for one entry more than
// a store can list, so that a list that is too long is told from every other.
#![tactic(auto)]

ghost use Rattle.std.specs.Prelude.{◌≡◌};
ghost use Rattle.error.specs.Answer.{told_answer};
ghost use Rattle.book.specs.Commit.{same_records, commit_call};
ghost use Rattle.lent_commit.specs.Handed.{same_elected_records};

use book::{
    Counts, ELECTED_WORDS, Elected, MOST_MOVES, MOST_RECORDS, MOVED_WORDS, Moved, MovedWords,
    PrintSegment, Settings,
};
use copying::least;
use error::Refusal;
use lent_entries::read;

// One entry more than a store can elect, and than a segment can move.
const ELECTED_ROOM: usize = MOST_RECORDS + 1;

const MOVED_ROOM: usize = MOST_MOVES + 1;

// A commit with the words of what is moved.
fn commit_moving(
    s: &mut [u64],
    settings: Settings,
    prints: PrintSegment,
    moved: &[MovedWords],
    elected: &[Elected],
) -> Result<Counts, Refusal>
    ensures { let o = commit_call (same_elected_records elected.now moved.now) settings prints s.old in
        (told_answer result ≡ o.answer)
        × (s.new ≡ o.words) }
{
    let mut words = [[0u64; ELECTED_WORDS]; ELECTED_ROOM];
    let room = least(elected.len(), ELECTED_ROOM);
    read(&mut words, elected, room);
    evaluate_commit::commit_segment(s, settings, prints, &words[..room], moved)
}

// Does what the segment does, if the store of this moment gives the lists that are handed in, as they were asked: in
// length and every field. No list is written. Refused: the store is not well formed (1); it gives other lists (20).
pub fn commit_segment(
    s: &mut [u64],
    settings: Settings,
    prints: PrintSegment,
    elected: &[Elected],
    moved: &[Moved],
) -> Result<Counts, Refusal>
    ensures { let o = commit_call (same_records elected.now moved.now) settings prints s.old in
        (told_answer result ≡ o.answer)
        × (s.new ≡ o.words) }
{
    let mut words = [[0u64; MOVED_WORDS]; MOVED_ROOM];
    let room = least(moved.len(), MOVED_ROOM);
    read(&mut words, moved, room);
    commit_moving(s, settings, prints, &words[..room], elected)
}
