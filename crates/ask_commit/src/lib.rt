// A segment asked and then committed, with no call between: document 02's request Six as the promise of one call, which
// is the segment's own.
#![tactic(auto)]

ghost use Rattle.std.specs.Prelude.{◌≤◌, map, ◌≡◌, length, take};
ghost use Rattle.error.specs.Answer.{told_answer};
ghost use Rattle.book.specs.Calls.{written, segment_call};
ghost use Rattle.book.specs.Commit.{same_words, commit_call};
ghost use Rattle.book.specs.Entries.{elected_words, moved_words};

use book::{Counts, ElectedWords, MovedWords, PrintSegment, Settings};
use error::Refusal;
use evaluate_ask::ask_segment;
use evaluate_commit::commit_segment;

// Commits the parts of the lists that were written: so many elected and moved entries.
fn commit_written(
    s: &mut [u64],
    settings: Settings,
    prints: PrintSegment,
    elected: &[ElectedWords],
    moved: &[MovedWords],
    counts: Counts,
) -> Result<Counts, Refusal>
    requires { (counts.elected ≤ length elected.now) × (counts.moves ≤ length moved.now) }
    ensures { let o = commit_call (same_words (take counts.elected elected.now) (take counts.moves moved.now))
        settings prints s.old in
        (told_answer result ≡ o.answer)
        × (s.new ≡ o.words) }
{
    let e = counts.elected as usize;
    let m = counts.moves as usize;
    commit_segment(s, settings, prints, &elected[..e], &moved[..m])
}

// Asks a segment, and commits the parts of the lists that asking wrote. Refused as a segment is (1, 14).
pub fn ask_and_commit(
    s: &mut [u64],
    settings: Settings,
    prints: PrintSegment,
    elected: &mut [ElectedWords],
    moved: &mut [MovedWords],
) -> Result<Counts, Refusal>
    ensures { let o = segment_call settings prints s.old (length elected.old) (length moved.old) in
        (told_answer result ≡ o.answer)
        × (s.new ≡ o.words)
        × (elected.new ≡ written (map elected_words o.elected) elected.old)
        × (moved.new ≡ written (map moved_words o.moved) moved.old) }
{
    let asked = ask_segment(&s[..], settings, prints, elected, moved);
    let Ok(counts) = asked else {
        return asked;
    };
    commit_written(s, settings, prints, &elected[..], &moved[..], counts)
}
