// The change of a pending stop, from orderbook-rs's stop_orders.rs: its questions in their order, then one operation; a
// refused call alters nothing.
#![tactic(auto)]

ghost use Rattle.std.specs.Prelude.{◌≡◌, ◌-◌};
ghost use Rattle.book.specs.Book.{Book};
ghost use Rattle.error.specs.Questions.{first_no};
ghost use Rattle.book.specs.Store.{cancels, change_questions};
ghost use Rattle.book.specs.Store as store;
ghost use Rattle.error.specs.Verdict.{told_verdict};
ghost use Rattle.error.specs.Answer.{told_answer};

use admission::{not_triggered, within_watermark};
use book::{OrderUpdate, StopEntry};
use error::{Ask, Refusal};
use form::well_formed;
use order_update::{
    cancels, changed_entry, changed_quantity, changed_terms, differs_in_price, next_after,
    sequence_left,
};
use pending_stops::change;
use pricelevel::{Id, Price};
use store_calls::cancel_pending_stop;
use stored_stops::{entry_at, find_id};

// ---------------------------------------------------------------------
// Cancel and change

// The questions of a change of a pending stop, in a book with this next sequence: 13, 4, 6, 7, 11.
fn ask_change(
    update: OrderUpdate,
    trade: Option<Price>,
    t: StopEntry,
    next: u64,
) -> Result<(), Refusal>
    ensures { (b : Book) → b.next ≡ next → told_verdict result ≡ first_no (change_questions update trade t b) }
{
    let quantity = changed_quantity(update, t);
    let terms = changed_terms(update, t);
    Ok(())
        .ask(differs_in_price(update, t), Refusal::SamePrice)
        .ask(quantity.0 >= 1, Refusal::ZeroQuantity)
        .ask(within_watermark(terms), Refusal::StopBeyondWatermark)
        .ask(not_triggered(terms, trade), Refusal::StopWouldTrigger)
        .ask(sequence_left(update, next), Refusal::SequenceExhausted)
}

// Changes the pending stop of an identity; a quantity of zero cancels it. Refused: the store is not well formed (1); no
// such stop (12); a change of price to the same (13); quantity zero (4); the stop beyond its watermark (6) or elected
// by the last trade (7); no sequence left where one is taken (11).
pub fn update_pending_stop(
    s: &mut [u64],
    id: Id,
    update: OrderUpdate,
    trade: Option<Price>,
) -> Result<StopEntry, Refusal>
    ensures result_value { told_answer result ≡ (store.update update id trade s.old).answer }
    ensures s_after { s.new ≡ (store.update update id trade s.old).words }
{
    if cancels(update) {
        return cancel_pending_stop(s, id);
    }
    if !well_formed(&s[..]) {
        return Err(Refusal::StoreNotWellFormed);
    }
    let n = s[0];
    let at = find_id(&s[..], n, id);
    if at == 0 {
        return Err(Refusal::OrderNotFound);
    }
    let t = entry_at(&s[..], n, at);
    let next = s[2];
    ask_change(update, trade, t, next)?;
    let terms = t.terms;
    let side = terms.side;
    let new = changed_entry(update, t, next);
    let after = next_after(update, next);
    change(s, n, at, side, new, after);
    Ok(new)
}
