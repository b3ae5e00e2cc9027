// The five chains of a store: a record taken out of one or put into it, the free chain as a stack, a stop linked in
// both of its side.
#![tactic(auto)]

ghost use Rattle.std.specs.Prelude.{List, ◌∷◌, ◌≡◌, ℕ, T};
ghost use Rattle.book.specs.Words.{cell, record_word};
ghost use Rattle.book.specs.Sizes.{next_by_watermark};
ghost use Rattle.chains.specs.Chained.{Chained, Kept, Outside, On, Ready, upd, without, within};
ghost use Rattle.book.specs.declared.StoreChain.{StoreChain};
ghost use Rattle.book.specs.declared.StoreChain.TheVariants.{Ordered, Free};
ghost use Rattle.chains.specs.Indices.{insert_ranked, remove, has};
ghost use Rattle.chains.specs.Rank.{rank_at};

use book::{Chain, NEXT_BY_STOP};
use links::{link_in, link_out};
use pricelevel::Side;
use records::{cell, head_of, link_of};

// ---------------------------------------------------------------------
// The chains of a store

// Takes record i out of a chain.
pub fn take_out(s: &mut [u64], n: u64, c: Chain, i: u64)
    requires { (ch : StoreChain → List ℕ) × Chained n s.old ch × T (has i (ch (Ordered c))) }
    ensures kept { Kept n s.old s.new }
    ensures by_index { (ch : StoreChain → List ℕ) → Chained n s.old ch → T (has i (ch (Ordered c)))
        → Chained n s.new (upd (Ordered c) (remove i (ch (Ordered c))) ch) }
{
    let link = link_of(c);
    let head = head_of(c);
    link_out(s, n, link, head, i);
}

// Puts record i into a chain, at its place.
pub fn put_in(s: &mut [u64], n: u64, c: Chain, i: u64)
    requires { (ch : StoreChain → List ℕ) × Chained n s.old ch × Outside n ch (Ordered c) i }
    ensures kept { Kept n s.old s.new }
    ensures by_index { (ch : StoreChain → List ℕ) → Chained n s.old ch → Outside n ch (Ordered c) i
        → Chained n s.new (upd (Ordered c) (insert_ranked (rank_at c s.old) i (ch (Ordered c))) ch) }
{
    let link = link_of(c);
    let head = head_of(c);
    link_in(s, n, c, link, head, i);
}

// Puts record i, which is in no chain and has no next by watermark, in front of the free chain.
pub fn push(s: &mut [u64], n: u64, i: u64)
    requires { (ch : StoreChain → List ℕ) × Ready n s.old ch i × (record_word s.old i next_by_watermark ≡ 0) }
    ensures kept { Kept n s.old s.new }
    ensures by_index { (ch : StoreChain → List ℕ) → Ready n s.old ch i → record_word s.old i next_by_watermark ≡ 0
        → Chained n s.new (upd Free (i ∷ ch Free) ch) }
{
    let at = cell(i, NEXT_BY_STOP);
    let next = s[8];
    s[at] = next;
    s[8] = i;
}

// Takes the first record out of the free chain, which has one.
pub fn pop(s: &mut [u64], n: u64) -> u64
    requires { (ch : StoreChain → List ℕ) × (i : ℕ) × (l : List ℕ) × Chained n s.old ch × (ch Free ≡ i ∷ l) }
    ensures kept { Kept n s.old s.new }
    ensures by_index { (ch : StoreChain → List ℕ) (i : ℕ) (l : List ℕ) → Chained n s.old ch → ch Free ≡ i ∷ l
        → (result ≡ i) × Ready n s.new (upd Free l ch) i }
{
    let i = s[8];
    let at = cell(i, NEXT_BY_STOP);
    let next = s[at];
    s[8] = next;
    i
}

// Takes record i out of the two chains of its side.
pub fn unlink(s: &mut [u64], n: u64, side: Side, i: u64)
    requires { (ch : StoreChain → List ℕ) × On n s.old ch side i }
    ensures kept { Kept n s.old s.new }
    ensures by_index { (ch : StoreChain → List ℕ) → On n s.old ch side i → Ready n s.new (without side i ch) i }
{
    take_out(s, n, Chain::ByStop(side), i);
    take_out(s, n, Chain::ByWatermark(side), i);
}

// Puts record i, which is in no chain, into the two chains of a side, each at its place.
pub fn link(s: &mut [u64], n: u64, side: Side, i: u64)
    requires { (ch : StoreChain → List ℕ) × Ready n s.old ch i }
    ensures kept { Kept n s.old s.new }
    ensures by_index { (ch : StoreChain → List ℕ) → Ready n s.old ch i → Chained n s.new (within side s.old i ch) }
{
    put_in(s, n, Chain::ByStop(side), i);
    put_in(s, n, Chain::ByWatermark(side), i);
}
