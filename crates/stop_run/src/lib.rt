// The run over path and store, from orderbook-rs's stop_orders.rs: a pass over the path's segment, and the path reset.
#![tactic(auto)]

ghost use Rattle.std.specs.Prelude.{None, Some, cond, not, ◌||◌, map, ◌≡◌, eqb, length};
ghost use Rattle.book.specs.Calls.{written, run_call};
ghost use Rattle.book.specs.Path.{segment_of};
ghost use Rattle.error.specs.Answer.{told_answer};
ghost use Rattle.book.specs.Entries.{elected_words};

use book::{ElectedWords, PassCounts, PrintPath, PrintSegment, Settings, StopRun};
use evaluate_pass::{ask_pass, pass_over};
use pricelevel::Price;
use print_path::{closed, taken};

// The segment that a run takes, if stops are pending and the path is open.
fn next_segment(path: PrintPath, trade: Option<Price>, pending: u64) -> Option<PrintSegment>
    ensures { result ≡ cond (eqb pending 0 || not path.«open») None (Some (segment_of path trade)) }
{
    if pending == 0 {
        return None;
    }
    let taken = taken(path, trade);
    taken.segment
}

// A run over path and store: takes the path's segment, up to the last trade, passes, and resets the path. Where nothing
// is pending or the path is closed it answers zeros and leaves all alone. Refused as a pass is.
pub fn run_stop_triggers(
    s: &mut [u64],
    path: PrintPath,
    settings: Settings,
    script: &[u64],
    trade: Option<Price>,
    elected: &mut [ElectedWords],
) -> StopRun
    ensures { let o = run_call settings script.now trade s.old (length elected.old) path in
        (told_answer result.answer ≡ o.answer)
        × (s.new ≡ o.words)
        × (elected.new ≡ written (map elected_words o.elected) elected.old)
        × (result.path ≡ o.path) }
{
    let verdict = ask_pass(&s[..], script, elected.len());
    match verdict {
        Err(e) => StopRun {
            answer: Err(e),
            path: path,
        },
        Ok(()) => {
            let next = next_segment(path, trade, s[1]);
            let Some(prints) = next else {
                return StopRun {
                    answer: Ok(PassCounts {
                        moves: 0,
                        elected: 0,
                        used: 0,
                    }),
                    path: path,
                };
            };
            let counts = pass_over(s, settings, script, prints, elected);
            StopRun {
                answer: Ok(counts),
                path: closed(path),
            }
        }
    }
}
