// Admission for hosts: every argument as words. `yubtomiq` says what it does.
#![tactic(auto)]

ghost use Rattle.std.specs.Prelude.{◌≡◌};
ghost use Rattle.host_words.specs.Answers.{Told, seq_words};
ghost use Rattle.host_words.specs.ByWords.{admit_by_words};

use host_words::{HolderWords, UNKNOWN};
use path_words::{last_price_of, path_known, path_of, path_words};
use pricelevel::Quantity;
use term_words::{holder_of, id_known, id_of, terms_known, terms_of};

pub fn admit_trailing_stop(
    s: &mut [u64],
    path: &mut [u64; 4],
    kill: u64,
    trade: &[u64; 2],
    id: &[u64; 3],
    terms: &[u64; 4],
    quantity: u64,
    holder: &HolderWords,
    answer: &mut [u64; 1],
) -> u64
    ensures { let o = admit_by_words kill trade.now id.now terms.now quantity holder.now s.old path.old in
        Told seq_words o.answer answer.old result answer.new
        × (s.new ≡ o.words)
        × (path.new ≡ o.path) }
{
    if !id_known(id) {
        return UNKNOWN;
    }
    if !terms_known(terms) {
        return UNKNOWN;
    }
    if !path_known(path) {
        return UNKNOWN;
    }
    let admitted = admission::admit_trailing_stop(
        s,
        path_of(path),
        kill != 0,
        last_price_of(trade),
        id_of(id),
        terms_of(terms),
        Quantity(quantity),
        holder_of(holder),
    );
    let after = admitted.path;
    *path = path_words(after);
    let given = admitted.answer;
    answer_words::answer(given, answer)
}
