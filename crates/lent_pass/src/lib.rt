// A pass over a lent list of records: what it elects is written as words into a local array, as far as the list has
// room, and from there into the list.
#![tactic(auto)]

ghost use Rattle.std.specs.Prelude.{◌≡◌, length};
ghost use Rattle.error.specs.Answer.{told_answer};
ghost use Rattle.book.specs.Calls.{written, pass_call};

use book::{ELECTED_WORDS, Elected, MOST_RECORDS, PassCounts, PrintSegment, Settings};
use copying::least;
use error::Refusal;
use lent_lists::fill;
use word_rooms::pass_count;

// A pass: segments from a queue, at first this one, until it or the store is empty. Each elected stop whose child
// identity is free uses the next script entry. The elected are written from the start of the list; later entries stay.
// Refused: the store is not well formed (1); the list is shorter than the pending count (14); the script is not well
// formed (15).
pub fn evaluate_pending_stops(
    s: &mut [u64],
    settings: Settings,
    script: &[u64],
    prints: PrintSegment,
    elected: &mut [Elected],
) -> Result<PassCounts, Refusal>
    ensures { let o = pass_call settings script.now prints s.old (length elected.old) in
        (told_answer result ≡ o.answer)
        × (s.new ≡ o.words)
        × (elected.new ≡ written o.elected elected.old) }
{
    let mut words = [[0u64; ELECTED_WORDS]; MOST_RECORDS];
    let room = least(elected.len(), MOST_RECORDS);
    let answer = evaluate_pass::evaluate_pending_stops(
        s,
        settings,
        &script[..],
        prints,
        &mut words[..room],
    );
    fill(elected, &words, pass_count(answer));
    answer
}
