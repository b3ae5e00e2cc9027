// Collecting pending stops by a selector, from orderbook-rs's cancels of many orders: the questions in their order, then
// the list by rising sequence. The store is only read.
#![tactic(auto)]

ghost use Rattle.std.specs.Prelude.{map, ◌≡◌, ◌≤◌, length};
ghost use Rattle.error.specs.Answer.{told_answer};
ghost use Rattle.book.specs.Book.{entries, indices, pending_count};
ghost use Rattle.book.specs.Calls.{written};
ghost use Rattle.book.specs.Entries.{stop_words};
ghost use Rattle.book.specs.Collect.{selected, collect_questions, collect};
ghost use Rattle.book.specs.Words.{slots_at};
ghost use Rattle.by_sequence.specs.Begins.{Begins};
ghost use Rattle.chains.specs.Records.{Room};
ghost use Rattle.error.specs.Questions.{first_no};
ghost use Rattle.error.specs.Verdict.{told_verdict};

use book::{MOST_RECORDS, Selector, StopWords};
use by_sequence::by_sequence;
use error::{Ask, Refusal};
use form::well_formed;
use selecting::{keep_selected, list_records};

// The questions of collect and of mass cancel: 1, 14.
pub fn ask_collect(s: &[u64], list: usize) -> Result<(), Refusal>
    ensures { told_verdict result ≡ first_no (collect_questions s.now list) }
{
    if !well_formed(s) {
        return Err(Refusal::StoreNotWellFormed);
    }
    let count = s[1] as usize;
    Ok(()).ask(list >= count, Refusal::ListTooShort)
}

// Writes the entries of the stops that a selector takes, by rising sequence, from the start of the list, and the indices
// of their records to the start of order. Answers how many.
pub fn list_selected(
    s: &[u64],
    n: u64,
    selector: Selector,
    order: &mut [u64],
    list: &mut [StopWords],
) -> usize
    requires { Room n s.now × (n ≤ length order.old) × (pending_count (slots_at s.now 1 n) ≤ length list.old) }
    ensures { let l = selected selector (slots_at s.now 1 n) in
        Begins order.new result (indices l)
        × (list.new ≡ written (map stop_words (entries l)) list.old) }
{
    let k = by_sequence(s, n, order);
    let m = keep_selected(s, n, selector, order, k);
    list_records(s, n, &order[..], m, list);
    m
}

// Lists the pending stops that a selector takes, by rising sequence, from the start of the list; later entries stay.
// Refused: the store is not well formed (1); the list is shorter than the pending count (14).
pub fn collect(s: &[u64], selector: Selector, list: &mut [StopWords]) -> Result<u64, Refusal>
    ensures { let o = collect selector s.now (length list.old) in
        (told_answer result ≡ o.answer)
        × (list.new ≡ written (map stop_words o.listed) list.old) }
{
    // No `?`: an edit changes what is handed up.
    if let Err(e) = ask_collect(s, list.len()) {
        return Err(e);
    }
    let mut order = [0u64; MOST_RECORDS];
    let n = s[0];
    let m = list_selected(s, n, selector, &mut order[..], list);
    Ok(m as u64)
}
