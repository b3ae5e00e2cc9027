// Pass and run for hosts: every argument as words. Asked before all else: is the path's every flag known (255)?
#![tactic(auto)]

ghost use Rattle.std.specs.Prelude.{map, ◌≡◌, length};
ghost use Rattle.book.specs.Calls.{written};
ghost use Rattle.book.specs.Entries.{elected_words};
ghost use Rattle.host_words.specs.Answers.{Told, pass_words};
ghost use Rattle.host_words.specs.ByWords.{pass_by_words, run_by_words};

use book::ElectedWords;
use evaluation_words::settings_of;
use host_words::UNKNOWN;
use path_words::{last_price_of, path_known, path_of, path_words, prints_of};

// A pass, which lists the elected, and answers how many moves, elected and used script entries there were. Refused: 1,
// 14, 15.
pub fn evaluate_pending_stops(
    s: &mut [u64],
    settings: &[u64; 4],
    script: &[u64],
    prints: &[u64; 4],
    elected: &mut [ElectedWords],
    answer: &mut [u64; 3],
) -> u64
    ensures { let o = pass_by_words settings.now script.now prints.now s.old (length elected.old) in
        Told pass_words o.answer answer.old result answer.new
        × (s.new ≡ o.words)
        × (elected.new ≡ written (map elected_words o.elected) elected.old) }
{
    let of = settings_of(settings);
    let first = prints_of(prints);
    let passed = evaluate_pass::evaluate_pending_stops(s, of, script, first, elected);
    answer_words::answer(passed, answer)
}

// A run over path and store, up to the last trade: a pass over the path's segment, and the path reset; nothing where no
// stop is pending or the path is closed. Refused: 255, 1, 14, 15.
pub fn run_stop_triggers(
    s: &mut [u64],
    path: &mut [u64; 4],
    settings: &[u64; 4],
    script: &[u64],
    trade: &[u64; 2],
    elected: &mut [ElectedWords],
    answer: &mut [u64; 3],
) -> u64
    ensures { let o = run_by_words settings.now script.now trade.now s.old (length elected.old)
        path.old in
        Told pass_words o.answer answer.old result answer.new
        × (s.new ≡ o.words)
        × (elected.new ≡ written (map elected_words o.elected) elected.old)
        × (path.new ≡ o.path) }
{
    if !path_known(path) {
        return UNKNOWN;
    }
    let of = settings_of(settings);
    let last = last_price_of(trade);
    let run = stop_run::run_stop_triggers(s, path_of(path), of, script, last, elected);
    let after = run.path;
    *path = path_words(after);
    let given = run.answer;
    answer_words::answer(given, answer)
}
