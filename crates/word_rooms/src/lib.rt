// How many entries an evaluation answers to have listed, as many as are read into a lent list.
#![tactic(auto)]

ghost use Rattle.std.specs.Prelude.{◌≡◌};
ghost use Rattle.error.specs.Answer.{told_answer};
ghost use Rattle.evaluation.specs.Counts.{elected_count, moved_count, pass_count};

use book::{Counts, PassCounts};
use error::Refusal;

// How many entries an evaluation elected; none where it was refused.
pub fn elected_count(answer: Result<Counts, Refusal>) -> usize
    ensures { result ≡ elected_count (told_answer answer) }
{
    match answer {
        Ok(c) => c.elected as usize,
        Err(_) => 0,
    }
}

// How many stops an evaluation moved; none where it was refused.
pub fn moved_count(answer: Result<Counts, Refusal>) -> usize
    ensures { result ≡ moved_count (told_answer answer) }
{
    match answer {
        Ok(c) => c.moves as usize,
        Err(_) => 0,
    }
}

// How many entries a pass elected; none where it was refused.
pub fn pass_count(answer: Result<PassCounts, Refusal>) -> usize
    ensures { result ≡ pass_count (told_answer answer) }
{
    match answer {
        Ok(counts) => counts.elected as usize,
        Err(_) => 0,
    }
}
