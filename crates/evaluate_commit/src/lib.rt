// Committing a segment that was asked: the store of this moment is evaluated on a copy, its lists are held against those
// that are handed in, and only where they are the same is the copy written back.
#![tactic(auto)]

ghost use Rattle.std.specs.Prelude.{◌*◌, ◌≡◌, length};
ghost use Rattle.error.specs.Answer.{told_answer};
ghost use Rattle.book.specs.Commit.{same_words, commit_call};
ghost use Rattle.book.specs.Sizes.{most_records};

use book::{
    Counts, ELECTED_WORDS, ElectedWords, MOST_MOVES, MOST_RECORDS, MOVED_WORDS, MovedWords,
    PrintSegment, Settings,
};
use copying::copy_start;
use error::Refusal;
use same_lists::are_listed;
use segment_copy::{segment_on_copy, store_room};

// Room for the longest lists.

fn elected_room() -> [ElectedWords; MOST_RECORDS]
    ensures { length result ≡ most_records }
{
    [[0; ELECTED_WORDS]; MOST_RECORDS]
}

fn moved_room() -> [MovedWords; MOST_MOVES]
    ensures { length result ≡ 2 * most_records }
{
    [[0; MOVED_WORDS]; MOST_MOVES]
}

// Does what the segment does, if the store of this moment gives the lists that are handed in, as they were asked: in
// length and every word. No list is written. Refused: the store is not well formed (1); it gives other lists (20).
pub fn commit_segment(
    s: &mut [u64],
    settings: Settings,
    prints: PrintSegment,
    elected: &[ElectedWords],
    moved: &[MovedWords],
) -> Result<Counts, Refusal>
    ensures { let o = commit_call (same_words elected.now moved.now) settings prints s.old in
        (told_answer result ≡ o.answer)
        × (s.new ≡ o.words) }
{
    let mut copied = store_room();
    let mut listed = elected_room();
    let mut shifted = moved_room();
    let o = segment_on_copy(
        &s[..],
        &mut copied,
        settings,
        prints,
        &mut listed,
        &mut shifted,
    );
    let answer = o.answer;
    let many = o.many;
    let Ok(counts) = answer else {
        return answer;
    };
    if !are_listed(elected, moved, &listed, &shifted, counts) {
        return Err(Refusal::ListsDiffer);
    }
    copy_start(s, &copied[..many]);
    answer
}
