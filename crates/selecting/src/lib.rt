// The records of a list that a selector takes, in the order of the list, and the words of their entries. The store is
// only read.
//
//     entry: kind high low side stop watermark trail quantity seq | the holder's four words
#![tactic(auto)]

ghost use Rattle.std.specs.Prelude.{map, ◌≡◌, ◌≤◌, length, take};
ghost use Rattle.book.specs.Calls.{written};
ghost use Rattle.book.specs.Collect.{selects};
ghost use Rattle.by_sequence.specs.Begins.{Begins};
ghost use Rattle.merging.specs.Named.{Named};
ghost use Rattle.selecting.specs.Selecting.{selected_in, entry_words_in};

use book::{Selector, StopEntry, StopWords};
use record_writer::stop_words;
use stored_stops::entry_at;

// Whether a selector takes a stop.
fn selects(selector: Selector, t: StopEntry) -> bool
    ensures { result ≡ selects selector t }
{
    let terms = t.terms;
    match selector {
        Selector::ByHolder(holder) => holder.eq(t.holder),
        Selector::BySide(side) => {
            let own = terms.side;
            side.number() == own.number()
        }
        Selector::ByPriceRange(lowest, highest) => {
            let stop = terms.stop;
            if lowest.0 > stop.0 {
                return false;
            }
            stop.0 <= highest.0
        }
    }
}

// Keeps those of the first k records of order that a selector takes, at its start. Answers how many.
pub fn keep_selected(s: &[u64], n: u64, selector: Selector, order: &mut [u64], k: usize) -> usize
    requires { Named n s.now (take k order.old) × (k ≤ length order.old) }
    ensures { Begins order.new result (selected_in s.now selector (take k order.old)) × (result ≤ k) }
{
    let mut m: usize = 0;
    for i in 0..k {
        let x = order[i];
        let t = entry_at(s, n, x);
        if !selects(selector, t) {
            continue;
        }
        order[m] = x;
        m += 1;
    }
    m
}

// Writes the entries of the first m records of order from the start of the list; later entries stay.
pub fn list_records(s: &[u64], n: u64, order: &[u64], m: usize, list: &mut [StopWords])
    requires { Named n s.now (take m order.now) × (m ≤ length order.now) × (m ≤ length list.old) }
    ensures { list.new ≡ written (map (entry_words_in s.now) (take m order.now)) list.old }
{
    for i in 0..m {
        let x = order[i];
        let t = entry_at(s, n, x);
        list[i] = stop_words(t);
    }
}
