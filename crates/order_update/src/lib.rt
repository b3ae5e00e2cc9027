// What a change makes of a stop: its terms, quantity and sequence, from orderbook-rs's update of a stop order.
#![tactic(auto)]

ghost use Rattle.std.specs.Prelude.{true, cond, not, ◌||◌, ◌≡◌, ◌+◌, ◌-◌, ◌<◌, ◌^◌, ltb};
ghost use Rattle.book.specs.Book.{Book};
ghost use Rattle.book.specs.Store.{changed_terms, changed_quantity, takes_sequence, cancels, differs_in_price, with_terms, changed_entry};

use book::{OrderUpdate, StopEntry};
use pricelevel::{Price, Quantity, Seq, Side};
use stop_terms::StopTerms;

// ---------------------------------------------------------------------
// Cancel and change

// The terms with another side and stop price.
fn with_terms(t: StopTerms, side: Side, stop: Price) -> StopTerms
    ensures { result ≡ with_terms t side stop }
{
    let watermark = t.watermark;
    StopTerms {
        side: side,
        stop: stop,
        watermark: watermark,
        trail: t.trail,
    }
}

// The terms after a change.
pub fn changed_terms(update: OrderUpdate, t: StopEntry) -> StopTerms
    ensures { result ≡ changed_terms update t }
{
    let terms = t.terms;
    let side = terms.side;
    match update {
        OrderUpdate::UpdateQuantity(_) => terms,
        OrderUpdate::UpdatePrice(price) => with_terms(terms, side, price),
        OrderUpdate::UpdatePriceAndQuantity(price, _) => with_terms(terms, side, price),
        OrderUpdate::Replace(new_side, price, _) => with_terms(terms, new_side, price),
    }
}

// The quantity after a change.
pub fn changed_quantity(update: OrderUpdate, t: StopEntry) -> Quantity
    ensures { result ≡ changed_quantity update t }
{
    match update {
        OrderUpdate::UpdateQuantity(quantity) => quantity,
        OrderUpdate::UpdatePrice(_) => t.quantity,
        OrderUpdate::UpdatePriceAndQuantity(_, quantity) => quantity,
        OrderUpdate::Replace(_, _, quantity) => quantity,
    }
}

// Whether a change takes a new sequence: all but a change of quantity do.
fn takes_sequence(update: OrderUpdate) -> bool
    ensures { result ≡ takes_sequence update }
{
    match update {
        OrderUpdate::UpdateQuantity(_) => false,
        OrderUpdate::UpdatePrice(_) => true,
        OrderUpdate::UpdatePriceAndQuantity(_, _) => true,
        OrderUpdate::Replace(_, _, _) => true,
    }
}

// Whether a change cancels: a quantity of zero does.
pub fn cancels(update: OrderUpdate) -> bool
    ensures { result ≡ cancels update }
{
    match update {
        OrderUpdate::UpdateQuantity(quantity) => quantity.0 == 0,
        OrderUpdate::UpdatePrice(_) => false,
        OrderUpdate::UpdatePriceAndQuantity(_, _) => false,
        OrderUpdate::Replace(_, _, _) => false,
    }
}

// Whether a change of price alone gives another price; other changes may keep it.
pub fn differs_in_price(update: OrderUpdate, t: StopEntry) -> bool
    ensures { result ≡ differs_in_price update t }
{
    let terms = t.terms;
    let stop = terms.stop;
    match update {
        OrderUpdate::UpdateQuantity(_) => true,
        OrderUpdate::UpdatePrice(price) => price.0 != stop.0,
        OrderUpdate::UpdatePriceAndQuantity(_, _) => true,
        OrderUpdate::Replace(_, _, _) => true,
    }
}

// Whether there is a sequence for a change that takes one.
pub fn sequence_left(update: OrderUpdate, next: u64) -> bool
    ensures { result ≡ (not (takes_sequence update) || ltb next (2 ^ 64 - 1)) }
{
    if takes_sequence(update) {
        return next < u64::MAX;
    }
    true
}

// The stop after a change, in a book with this next sequence.
pub fn changed_entry(update: OrderUpdate, t: StopEntry, next: u64) -> StopEntry
    ensures { (b : Book) → b.next ≡ next → result ≡ changed_entry update t b }
{
    let id = t.id;
    let holder = t.holder;
    let terms = changed_terms(update, t);
    let quantity = changed_quantity(update, t);
    let mut seq = t.seq;
    if takes_sequence(update) {
        seq = Seq(next);
    }
    StopEntry {
        id: id,
        terms: terms,
        quantity: quantity,
        seq: seq,
        holder: holder,
    }
}

// The next sequence after a change.
pub fn next_after(update: OrderUpdate, next: u64) -> u64
    requires { takes_sequence update ≡ true → next + 1 < 2 ^ 64 }
    ensures { result ≡ cond (takes_sequence update) (next + 1) next }
{
    if takes_sequence(update) {
        return next + 1;
    }
    next
}
