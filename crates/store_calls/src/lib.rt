// Cancel, search, clear and totals on a store of pending stops, from orderbook-rs's stop_orders.rs: the questions of
// each in their order, then one operation; a refused call alters nothing.
#![tactic(auto)]

ghost use Rattle.std.specs.Prelude.{◌≡◌, ◌-◌};
ghost use Rattle.book.specs.Path.{closed};
ghost use Rattle.book.specs.Store.{clear, find, cancel, pending_quantity};
ghost use Rattle.error.specs.Answer.{told_answer};

use book::{Cleared, PrintPath, StopEntry, Totals};
use error::{Ask, Refusal};
use form::well_formed;
use pending_stops::vacate;
use pending_totals::pending_quantity;
use pricelevel::Id;
use print_path::closed;
use store_layout::lay_out;
use stored_stops::{entry_at, find_id};

// ---------------------------------------------------------------------
// Cancel and change

// Takes the pending stop of an identity out. Refused: the store is not well formed (1), no such stop (12).
pub fn cancel_pending_stop(s: &mut [u64], id: Id) -> Result<StopEntry, Refusal>
    ensures result_value { told_answer result ≡ (cancel id s.old).answer }
    ensures s_after { s.new ≡ (cancel id s.old).words }
{
    Ok(()).ask(well_formed(&s[..]), Refusal::StoreNotWellFormed)?;
    let n = s[0];
    let i = find_id(&s[..], n, id);
    if i == 0 {
        return Err(Refusal::OrderNotFound);
    }
    let t = entry_at(&s[..], n, i);
    let terms = t.terms;
    let side = terms.side;
    vacate(s, n, i, side);
    Ok(t)
}

// ---------------------------------------------------------------------
// Search, clear, totals

// The pending stop of an identity, if there is one. The store is only read. Refused: it is not well formed (1).
pub fn pending_stop_order(s: &[u64], id: Id) -> Result<Option<StopEntry>, Refusal>
    ensures { told_answer result ≡ find id s.now }
{
    if !well_formed(s) {
        return Err(Refusal::StoreNotWellFormed);
    }
    let n = s[0];
    let at = find_id(s, n, id);
    if at == 0 {
        return Ok(None);
    }
    Ok(Some(entry_at(s, n, at)))
}

// Lays the store out anew with the same number of records and tick, and resets the path. Refused: it is not well formed
// (1).
pub fn clear(s: &mut [u64], path: PrintPath) -> Cleared
    ensures answer_value { told_answer result.answer ≡ (clear s.old path).answer }
    ensures path_value { result.path ≡ (clear s.old path).path }
    ensures s_after { s.new ≡ (clear s.old path).words }
{
    if !well_formed(&s[..]) {
        return Cleared {
            answer: Err(Refusal::StoreNotWellFormed),
            path: path,
        };
    }
    let n = s[0];
    let tick = s[3];
    lay_out(s, n, tick);
    let reset = closed(path);
    Cleared {
        answer: Ok(()),
        path: reset,
    }
}

// The pending quantity of each side. The store is only read. Refused: it is not well formed (1).
pub fn pending_stop_quantity(s: &[u64]) -> Result<Totals, Refusal>
    ensures { told_answer result ≡ pending_quantity s.now }
{
    Ok(()).ask(well_formed(s), Refusal::StoreNotWellFormed)?;
    let n = s[0];
    Ok(pending_quantity(s, n))
}
