// The ladder of trial prices: for each pending stop, by rising sequence, which of them elect it. Once the records are in
// that order, the terms of each are read once, and the prices are gone through for it; the store is only read.
//
//     entry: word, whose bit j says that price j elects the stop | how many do | place of the first, or 64
#![tactic(auto)]

ghost use Rattle.std.specs.Prelude.{map, ◌≡◌, ◌≤◌, length, take};
ghost use Rattle.error.specs.Answer.{told_answer};
ghost use Rattle.book.specs.Calls.{written};
ghost use Rattle.book.specs.Ladder.{ladder_words, ladder_questions, ladder};
ghost use Rattle.book.specs.Sizes.{most_trial_prices};
ghost use Rattle.error.specs.Questions.{first_no};
ghost use Rattle.error.specs.Verdict.{told_verdict};
ghost use Rattle.ladder.specs.Records.{ladder_words_in};
ghost use Rattle.merging.specs.Named.{Named};
ghost use Rattle.pricelevel.specs.Price.{to_price};

use book::{LadderWords, MOST_RECORDS, MOST_TRIAL_PRICES};
use by_sequence::by_sequence;
use error::{Ask, Refusal};
use form::well_formed;
use stored_stops::terms_at;
use trial_prices::ladder_entry;

// The questions: 1, 19, 14.
fn ask_ladder(s: &[u64], prices: &[u64], list: usize) -> Result<(), Refusal>
    ensures { told_verdict result ≡ first_no (ladder_questions (map to_price prices.now) s.now list) }
{
    if !well_formed(s) {
        return Err(Refusal::StoreNotWellFormed);
    }
    let count = s[1] as usize;
    Ok(())
        .ask(prices.len() >= 1, Refusal::TrialPriceCountOutOfRange)
        .ask(
            prices.len() <= MOST_TRIAL_PRICES,
            Refusal::TrialPriceCountOutOfRange,
        )
        .ask(list >= count, Refusal::ListTooShort)
}

// Writes the entries of the first m records of order from the start of the list; later entries stay.
fn list_entries(
    s: &[u64],
    n: u64,
    prices: &[u64],
    order: &[u64],
    m: usize,
    list: &mut [LadderWords],
)
    requires named { Named n s.now (take m order.now) × (m ≤ length order.now) × (m ≤ length list.old) }
    requires prices_len_bound { length prices.now ≤ most_trial_prices }
    ensures { list.new ≡ written (map (ladder_words_in (map to_price prices.now) s.now) (take m order.now)) list.old }
{
    for i in 0..m {
        let terms = terms_at(s, n, order[i]);
        list[i] = ladder_entry(terms, prices);
    }
}

// Lists which of the prices elect each pending stop, by rising sequence, from the start of the list; later entries stay.
// Refused: the store is not well formed (1); not 1 to 64 prices (19); the list is shorter than the pending count (14).
pub fn ladder(s: &[u64], prices: &[u64], list: &mut [LadderWords]) -> Result<u64, Refusal>
    ensures { let o = ladder (map to_price prices.now) s.now (length list.old) in
        (told_answer result ≡ o.answer)
        × (list.new ≡ written (map ladder_words o.listed) list.old) }
{
    // No `?`: an edit changes what is handed up.
    if let Err(e) = ask_ladder(s, prices, list.len()) {
        return Err(e);
    }
    let mut order = [0u64; MOST_RECORDS];
    let n = s[0];
    let k = by_sequence(s, n, &mut order[..]);
    list_entries(s, n, prices, &order[..], k, list);
    Ok(k as u64)
}
