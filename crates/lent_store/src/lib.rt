// The calls on store and print path together, the path lent: each is thin over the call by value of the same name.
#![tactic(auto)]

ghost use Rattle.std.specs.Prelude.{◌≡◌};
ghost use Rattle.error.specs.Answer.{told_answer};
ghost use Rattle.book.specs.Store.{clear, admit};

use book::PrintPath;
use error::Refusal;
use pricelevel::{Holder, Id, Price, Quantity, Seq};
use stop_terms::StopTerms;

// Admits a stop for its holder. Refused: the store is not well formed (1); the kill switch is on (3); quantity (4) or trail (5) zero;
// the stop beyond its watermark (6) or elected by the last trade (7); its identity pending (8); the trail off the tick
// (9); no free record (10); no sequence left (11).
pub fn admit_trailing_stop(
    s: &mut [u64],
    path: &mut PrintPath,
    kill: bool,
    trade: Option<Price>,
    id: Id,
    terms: StopTerms,
    quantity: Quantity,
    holder: Holder,
) -> Result<Seq, Refusal>
    ensures result_value { told_answer result ≡ (admit kill trade id terms quantity holder s.old path.old).answer }
    ensures path_after { path.new ≡ (admit kill trade id terms quantity holder s.old path.old).path }
    ensures s_after { s.new ≡ (admit kill trade id terms quantity holder s.old path.old).words }
{
    let admission = admission::admit_trailing_stop(
        s, *path, kill, trade, id, terms, quantity, holder,
    );
    *path = admission.path;
    admission.answer
}

// Lays the store out anew with the same number of records and tick, and resets the path. Refused: it is not well formed
// (1).
pub fn clear(s: &mut [u64], path: &mut PrintPath) -> Result<(), Refusal>
    ensures result_value { told_answer result ≡ (clear s.old path.old).answer }
    ensures path_after { path.new ≡ (clear s.old path.old).path }
    ensures s_after { s.new ≡ (clear s.old path.old).words }
{
    let cleared = store_calls::clear(s, *path);
    *path = cleared.path;
    cleared.answer
}
