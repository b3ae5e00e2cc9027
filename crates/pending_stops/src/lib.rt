// The operations that change a store: a stop out, a stop in, a stop changed.
#![tactic(auto)]

ghost use Rattle.std.specs.Prelude.{List, ◌≡◌, ℕ, ◌+◌, ◌-◌, ◌<◌, ◌^◌};
ghost use Rattle.book.specs.Valid.{Valid, Fits, Admissible};
ghost use Rattle.book.specs.Book.{Book};
ghost use Rattle.book.specs.Store.{vacated, admitted, new_entry};
ghost use Rattle.book.specs.Chains.{Member};
ghost use Rattle.pending_stops.specs.Stored.{Stored, replaced};

use book::StopEntry;
use pricelevel::{Holder, Id, Quantity, Seq, Side};
use record_writer::{write_entry, write_free};
use stop_terms::StopTerms;
use store_chains::{link, pop, push, unlink};

// Takes the stop of record i, of this side, out of the store.
pub fn vacate(s: &mut [u64], n: u64, i: u64, side: Side)
    requires { (b : Book) × (r : List ℕ) × Stored n s.old b r × Member side b.slots i }
    ensures { (b : Book) (r : List ℕ) → Stored n s.old b r → Member side b.slots i
        → Stored n s.new (vacated i b) r }
{
    let count = s[1];
    s[1] = count - 1;
    unlink(s, n, side, i);
    write_free(s, n, i, 0);
    push(s, n, i);
}

// Puts another stop in the place of that of record i, of this side, and another next sequence.
pub fn change(s: &mut [u64], n: u64, i: u64, side: Side, t: StopEntry, next: u64)
    requires { (b : Book) × (r : List ℕ) × Stored n s.old b r × Member side b.slots i
        × Valid (replaced i t next b) × Fits (replaced i t next b) }
    ensures { (b : Book) (r : List ℕ) → Stored n s.old b r → Member side b.slots i
        → Valid (replaced i t next b) → Fits (replaced i t next b) → Stored n s.new (replaced i t next b) r }
{
    s[2] = next;
    unlink(s, n, side, i);
    write_entry(s, n, i, t);
    let terms = t.terms;
    let new_side = terms.side;
    link(s, n, new_side, i);
}

// Takes a stop in, in the first free record, with the next sequence, which it answers.
pub fn occupy(
    s: &mut [u64],
    n: u64,
    id: Id,
    terms: StopTerms,
    quantity: Quantity,
    holder: Holder,
) -> Seq
    requires { (b : Book) × (r : List ℕ) × Stored n s.old b r × Admissible (new_entry id terms quantity holder b) b × (b.next + 1 < 2 ^ 64) }
    ensures { (b : Book) (r : List ℕ) → Stored n s.old b r → Admissible (new_entry id terms quantity holder b) b → b.next + 1 < 2 ^ 64
        → (result.0 ≡ b.next) × Stored n s.new (admitted (new_entry id terms quantity holder b) b) r }
{
    let count = s[1];
    let next = s[2];
    s[1] = count + 1;
    s[2] = next + 1;
    let i = pop(s, n);
    let t = StopEntry {
        id: id,
        terms: terms,
        quantity: quantity,
        seq: Seq(next),
        holder: holder,
    };
    write_entry(s, n, i, t);
    let side = terms.side;
    link(s, n, side, i);
    Seq(next)
}
