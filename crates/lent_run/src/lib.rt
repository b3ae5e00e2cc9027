// The run over store, lent path and lent list: the path over a run by value, which fills the list.
#![tactic(auto)]

ghost use Rattle.std.specs.Prelude.{map, ◌≡◌, length};
ghost use Rattle.error.specs.Answer.{told_answer};
ghost use Rattle.book.specs.Calls.{written, run_call};
ghost use Rattle.evaluation.specs.Counts.{pass_count};
ghost use Rattle.book.specs.Entries.{elected_words};
ghost use Rattle.lent_run.specs.Runs.{told_run};

use book::{
    ELECTED_WORDS, Elected, ElectedWords, MOST_RECORDS, PassCounts, PrintPath, Settings, StopRun,
};
use copying::least;
use error::Refusal;
use lent_lists::fill;
use pricelevel::Price;
use word_rooms::pass_count;

// The path that a run begins with, and the last trade.
#[derive(Clone, Copy)]
struct Start {
    path: PrintPath,
    trade: Option<Price>,
}

// A run over store and words, the path by value.
fn run_words(
    s: &mut [u64],
    settings: Settings,
    script: &[u64],
    start: Start,
    words: &mut [ElectedWords],
) -> StopRun
    ensures { let o = run_call settings script.now start.trade s.old (length words.old) start.path in
        (told_run result ≡ (o.answer, o.path))
        × (s.new ≡ o.words)
        × (words.new ≡ written (map elected_words o.elected) words.old) }
{
    let path = start.path;
    let trade = start.trade;
    stop_run::run_stop_triggers(s, path, settings, script, trade, words)
}

// How many entries a run elected; none where it was refused.
fn run_count(run: StopRun) -> usize
    ensures { result ≡ pass_count (told_answer run.answer) }
{
    let answer = run.answer;
    pass_count(answer)
}

// A run over store and lent list, the path by value.
fn run_listed(
    s: &mut [u64],
    settings: Settings,
    script: &[u64],
    start: Start,
    elected: &mut [Elected],
) -> StopRun
    ensures { let o = run_call settings script.now start.trade s.old (length elected.old) start.path in
        (told_run result ≡ (o.answer, o.path))
        × (s.new ≡ o.words)
        × (elected.new ≡ written o.elected elected.old) }
{
    let mut words = [[0u64; ELECTED_WORDS]; MOST_RECORDS];
    let room = least(elected.len(), MOST_RECORDS);
    let run = run_words(s, settings, &script[..], start, &mut words[..room]);
    fill(elected, &words, run_count(run));
    run
}

// A run over path and store: takes the path's segment, up to the last trade, passes, and resets the path. Where nothing
// is pending or the path is closed it answers zeros and leaves all alone. Refused as a pass is.
pub fn run_stop_triggers(
    s: &mut [u64],
    path: &mut PrintPath,
    settings: Settings,
    script: &[u64],
    trade: Option<Price>,
    elected: &mut [Elected],
) -> Result<PassCounts, Refusal>
    ensures { let o = run_call settings script.now trade s.old (length elected.old) path.old in
        (told_answer result ≡ o.answer)
        × (s.new ≡ o.words)
        × (elected.new ≡ written o.elected elected.old)
        × (path.new ≡ o.path) }
{
    let start = Start {
        path: *path,
        trade: trade,
    };
    let run = run_listed(s, settings, script, start, elected);
    *path = run.path;
    run.answer
}
