// The cancel of all pending stops that a selector takes, from orderbook-rs's mass cancels: collect, and then a cancel of
// each in the order of the list, so that the free chain begins with the record of the last. It touches no print path.
#![tactic(auto)]

ghost use Rattle.std.specs.Prelude.{List, map, ◌≡◌, ℕ, length};
ghost use Rattle.error.specs.Answer.{told_answer};
ghost use Rattle.book.specs.Book.{Book, indices};
ghost use Rattle.book.specs.Calls.{written};
ghost use Rattle.book.specs.Entries.{stop_words};
ghost use Rattle.book.specs.Collect.{selected, vacated_each, mass_cancel};
ghost use Rattle.book.specs.declared.Selector.{Selector};
ghost use Rattle.by_sequence.specs.Begins.{Begins};
ghost use Rattle.pending_stops.specs.Stored.{Stored};

use book::{MOST_RECORDS, Selector, StopWords};
use collect::{ask_collect, list_selected};
use error::Refusal;
use pending_stops::vacate;
use stored_stops::terms_at;

// Takes the stops of the first m records of order, which are those that a selector takes, out of the store, one after
// the other.
fn cancel_each(s: &mut [u64], n: u64, order: &[u64], m: usize)
    requires { (b : Book) × (r : List ℕ) × (selector : Selector) × Stored n s.old b r
        × Begins order.now m (indices (selected selector b.slots)) }
    ensures { (b : Book) (r : List ℕ) (selector : Selector) → Stored n s.old b r
        → Begins order.now m (indices (selected selector b.slots))
        → Stored n s.new (vacated_each (selected selector b.slots) b) r }
{
    for i in 0..m {
        let x = order[i];
        let terms = terms_at(&s[..], n, x);
        let side = terms.side;
        vacate(s, n, x, side);
    }
}

// Lists the pending stops that a selector takes, by rising sequence, from the start of the list, and takes them out of
// the store in that order; later entries stay. Refused: the store is not well formed (1); the list is shorter than the
// pending count (14).
pub fn mass_cancel(
    s: &mut [u64],
    selector: Selector,
    list: &mut [StopWords],
) -> Result<u64, Refusal>
    ensures { let o = mass_cancel selector s.old (length list.old) in
        (told_answer result ≡ o.answer)
        × (s.new ≡ o.words)
        × (list.new ≡ written (map stop_words o.listed) list.old) }
{
    // No `?`: an edit changes what is handed up.
    if let Err(e) = ask_collect(&s[..], list.len()) {
        return Err(e);
    }
    let mut order = [0u64; MOST_RECORDS];
    let n = s[0];
    let m = list_selected(&s[..], n, selector, &mut order[..], list);
    cancel_each(s, n, &order[..], m);
    Ok(m as u64)
}
