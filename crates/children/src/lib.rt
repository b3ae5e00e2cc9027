// What an elected entry gets once its stop has left: the protection limit, the child's identity, and whether that
// identity is pending.
#![tactic(auto)]

ghost use Rattle.std.specs.Prelude.{cond, List, [], map, ◌≡◌, ℕ, ◌+◌, ◌≤◌, ◌<◌, length, get_or, set};
ghost use Rattle.std.proofs.lemmas.List.Edits.{sets};
ghost use Rattle.book.specs.Book.{Book};
ghost use Rattle.book.specs.Calls.{elected_entry};
ghost use Rattle.book.specs.Evaluation.{Fill};
ghost use Rattle.book.specs.Store.{is_pending};
ghost use Rattle.book.specs.Entries.{elected_words};
ghost use Rattle.listing.specs.ChainEntries.{fill_words, completed};
ghost use Rattle.pending_stops.specs.Stored.{Stored};

use book::{ElectedWords, Settings};
use pricelevel::{Id, Price};
use stop_protection::{limit_under, limit_words};
use stop_trigger::stop_trigger_order_id;
use stored_stops::{find_id, kind_of, side_from};

// ---------------------------------------------------------------------
// Their limits and child orders

// 1 if a stop of this identity is pending, else 0.
fn pending_word(s: &[u64], n: u64, id: Id) -> u64
    requires { (b : Book) × (r : List ℕ) × Stored n s.now b r }
    ensures { (b : Book) (r : List ℕ) → Stored n s.now b r → result ≡ cond (is_pending id b) 1 0 }
{
    let i = find_id(s, n, id);
    if i == 0 {
        return 0;
    }
    1
}

// Completes the entry at a place, which has the words of a fill.
fn complete_entry(s: &[u64], n: u64, settings: Settings, list: &mut [ElectedWords], at: usize)
    requires by_index { (b : Book) × (r : List ℕ) × Stored n s.now b r }
    requires at_in_bounds { at < length list.old }
    ensures { (b : Book) (r : List ℕ) → Stored n s.now b r
        → list.new ≡ set list.old at (completed settings b (get_or list.old at [])) }
{
    let e = list[at];
    let id = Id {
        kind: kind_of(e[0]),
        high: e[1],
        low: e[2],
    };
    let protection = settings.protection;
    let limit = limit_under(protection, side_from(e[3]), Price(e[4]));
    let namespace = settings.namespace;
    let child = stop_trigger_order_id(namespace, id);
    let pending = pending_word(s, n, child);
    let words = limit_words(limit);
    list[at] = [
        e[0], e[1], e[2], e[3], e[4], e[5], e[6], e[7], words[0], words[1], words[2], child.high,
        child.low, pending,
    ];
}

// Completes the entries from one place to another, which have the words of fills: each with its limit, its child
// order's identity, and whether that is pending in the store.
pub fn complete(
    s: &[u64],
    n: u64,
    settings: Settings,
    list: &mut [ElectedWords],
    from: usize,
    to: usize,
)
    requires by_index { (b : Book) × (r : List ℕ) × Stored n s.now b r }
    requires to_in_bounds { to ≤ length list.old }
    ensures { (b : Book) (r : List ℕ) (l : List (List ℕ)) (fs : List Fill) → Stored n s.now b r
        → list.old ≡ sets l from (map fill_words fs) → to ≡ from + length fs
        → list.new ≡ sets list.old from (map (λ f. elected_words (elected_entry settings b f)) fs) }
{
    for at in from..to {
        complete_entry(s, n, settings, list, at);
    }
}
