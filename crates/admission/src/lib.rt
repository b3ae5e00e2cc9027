// The calls on a store of pending stops: admission, change, cancel, search, clear and totals, from orderbook-rs's
// stop_orders.rs. Each goes through its questions in their order and then does one operation; a refused call alters
// nothing.
#![tactic(auto)]

ghost use Rattle.std.specs.Prelude.{true, cond, ◌≡◌, ◌-◌, ◌<◌, eqb};
ghost use Rattle.book.specs.Path.{closed};
ghost use Rattle.error.specs.Questions.{first_no};
ghost use Rattle.book.specs.Store.{within_watermark, not_triggered, admit, admission_questions};
ghost use Rattle.error.specs.Verdict.{told_verdict};
ghost use Rattle.error.specs.Answer.{told_answer};

use book::{Admission, PrintPath};
use error::{Ask, Refusal};
use form::well_formed;
use pending_stops::occupy;
use pricelevel::{Holder, Id, Price, Quantity, on_tick};
use print_path::closed;
use stop_terms::{StopTerms, is_behind};
use stored_stops::find_id;

// Whether the stop is on the right side of its watermark, or at it.
pub fn within_watermark(terms: StopTerms) -> bool
    ensures { result ≡ within_watermark terms }
{
    let side = terms.side;
    let watermark = terms.watermark;
    let stop = terms.stop;
    !is_behind(side, watermark, stop)
}

// Whether the last trade, if there was one, does not elect the stop.
pub fn not_triggered(terms: StopTerms, trade: Option<Price>) -> bool
    ensures { result ≡ not_triggered terms trade }
{
    let Some(price) = trade else {
        return true;
    };
    !terms.elected_by(price)
}

// ---------------------------------------------------------------------
// Admission

// The questions of an admission in their order: 1, 3 to 11.
fn ask_admission(
    s: &[u64],
    kill: bool,
    trade: Option<Price>,
    id: Id,
    terms: StopTerms,
    quantity: Quantity,
) -> Result<(), Refusal>
    ensures { told_verdict result ≡ first_no (admission_questions kill trade id terms quantity s.now) }
{
    if !well_formed(s) {
        return Err(Refusal::StoreNotWellFormed);
    }
    let n = s[0];
    let pending = s[1];
    let next = s[2];
    let tick = s[3];
    Ok(())
        .ask(!kill, Refusal::KillSwitchActive)
        .ask(quantity.0 >= 1, Refusal::ZeroQuantity)
        .ask(terms.trail >= 1, Refusal::ZeroTrail)
        .ask(within_watermark(terms), Refusal::StopBeyondWatermark)
        .ask(not_triggered(terms, trade), Refusal::StopWouldTrigger)
        .ask(find_id(s, n, id) == 0, Refusal::DuplicateOrderId)
        .ask(on_tick(tick, terms.trail), Refusal::TrailOffTick)
        .ask(pending < n, Refusal::NoFreeRecord)
        .ask(next < u64::MAX, Refusal::SequenceExhausted)
}

// The print path after an admission into a store with so many stops: into an empty one, it is reset.
fn path_after(path: PrintPath, pending: u64) -> PrintPath
    ensures { result ≡ cond (eqb pending 0) (closed path) path }
{
    if pending == 0 {
        return closed(path);
    }
    path
}

// Admits a stop for its holder. Refused: the store is not well formed (1); the kill switch is on (3); quantity (4) or trail (5) zero;
// the stop beyond its watermark (6) or elected by the last trade (7); its identity pending (8); the trail off the tick
// (9); no free record (10); no sequence left (11).
pub fn admit_trailing_stop(
    s: &mut [u64],
    path: PrintPath,
    kill: bool,
    trade: Option<Price>,
    id: Id,
    terms: StopTerms,
    quantity: Quantity,
    holder: Holder,
) -> Admission
    ensures answer_value { told_answer result.answer ≡ (admit kill trade id terms quantity holder s.old path).answer }
    ensures path_value { result.path ≡ (admit kill trade id terms quantity holder s.old path).path }
    ensures s_after { s.new ≡ (admit kill trade id terms quantity holder s.old path).words }
{
    let verdict = ask_admission(&s[..], kill, trade, id, terms, quantity);
    match verdict {
        Err(e) => Admission {
            answer: Err(e),
            path: path,
        },
        Ok(()) => {
            let n = s[0];
            let after = path_after(path, s[1]);
            let seq = occupy(s, n, id, terms, quantity, holder);
            Admission {
                answer: Ok(seq),
                path: after,
            }
        }
    }
}
