// The pass over a store of pending stops, from orderbook-rs's stop_orders.rs: its questions in their order, then the
// segments of its queue. A refused call alters nothing.
#![tactic(auto)]

ghost use Rattle.std.specs.Prelude.{None, map, ◌≡◌, length};
ghost use Rattle.book.specs.Calls.{written, pass_questions, passed, pass_call};
ghost use Rattle.error.specs.Questions.{first_no};
ghost use Rattle.error.specs.Answer.{accepted, told_answer};
ghost use Rattle.error.specs.Verdict.{told_verdict};
ghost use Rattle.book.specs.Entries.{elected_words};

use book::{ElectedWords, PassCounts, PrintSegment, Settings};
use error::{Ask, Refusal};
use form::well_formed;
use passing::pass;
use script::script_formed;

// The questions of a pass: 1, 14, 15.
pub fn ask_pass(s: &[u64], script: &[u64], elected: usize) -> Result<(), Refusal>
    ensures { told_verdict result ≡ first_no (pass_questions script.now s.now elected) }
{
    if !well_formed(s) {
        return Err(Refusal::StoreNotWellFormed);
    }
    let count = s[1] as usize;
    Ok(())
        .ask(elected >= count, Refusal::ListTooShort)
        .ask(script_formed(script), Refusal::InvalidScript)
}

// A pass over a store that its questions let through, from a segment on.
pub fn pass_over(
    s: &mut [u64],
    settings: Settings,
    script: &[u64],
    prints: PrintSegment,
    elected: &mut [ElectedWords],
) -> PassCounts
    requires { first_no (pass_questions script.now s.old (length elected.old)) ≡ None }
    ensures { let o = passed settings script.now prints s.old in
        (accepted result ≡ o.answer)
        × (s.new ≡ o.words)
        × (elected.new ≡ written (map elected_words o.elected) elected.old) }
{
    let n = s[0];
    let o = pass(s, n, settings, script, prints, elected);
    PassCounts {
        moves: o.moves,
        elected: o.at as u64,
        used: o.used,
    }
}

// A pass: segments from a queue, at first this one, until it or the store is empty. Each elected stop whose child
// identity is free uses the next script entry. Refused: the store is not well formed (1); the list is shorter than the
// pending count (14); the script is not well formed (15).
pub fn evaluate_pending_stops(
    s: &mut [u64],
    settings: Settings,
    script: &[u64],
    prints: PrintSegment,
    elected: &mut [ElectedWords],
) -> Result<PassCounts, Refusal>
    ensures { let o = pass_call settings script.now prints s.old (length elected.old) in
        (told_answer result ≡ o.answer)
        × (s.new ≡ o.words)
        × (elected.new ≡ written (map elected_words o.elected) elected.old) }
{
    ask_pass(&s[..], script, elected.len())?;
    Ok(pass_over(s, settings, script, prints, elected))
}
