// The terms of a stop and the preview for hosts: every argument as words. `yubtomiq` says what each call does.
#![tactic(auto)]

ghost use Rattle.std.specs.Prelude.{◌≡◌};
ghost use Rattle.stop_terms.specs.Terms.{inconsistency_number};
ghost use Rattle.host_words.specs.Answers.{Told, flag, or_zero, terms_words, preview_words};
ghost use Rattle.host_words.specs.ByWords.{trailed_by_words, elected_by_words, inconsistency_by_words, preview_by_words};

use host_words::UNKNOWN;
use path_words::flag;
use pricelevel::Price;
use repricing::Adjustment;
use stop_terms::Inconsistency;
use term_words::{side_known, terms_known, terms_of, terms_words};

fn preview_words(next: Option<Adjustment>) -> [u64; 3]
    ensures { result ≡ preview_words next }
{
    match next {
        None => [0, 0, 0],
        Some(a) => [1, a.stop.0, a.reference.0],
    }
}

fn of_inconsistency(r: Option<Inconsistency>) -> u64
    ensures { result ≡ or_zero (inconsistency_number r) }
{
    match r {
        None => 0,
        Some(Inconsistency::ZeroTrail) => 5,
        Some(Inconsistency::SellAboveWatermark) => 6,
        Some(Inconsistency::BuyBelowWatermark) => 6,
    }
}

pub fn trailed(terms: &[u64; 4], price: u64, answer: &mut [u64; 4]) -> u64
    ensures { Told terms_words (trailed_by_words terms.now price) answer.old result answer.new }
{
    if !terms_known(terms) {
        return UNKNOWN;
    }
    let of = terms_of(terms);
    *answer = terms_words(of.trailed(Price(price)));
    0
}

pub fn elected_by(terms: &[u64; 4], price: u64) -> u64
    ensures { result ≡ elected_by_words terms.now price }
{
    if !terms_known(terms) {
        return UNKNOWN;
    }
    let of = terms_of(terms);
    flag(of.elected_by(Price(price)))
}

pub fn inconsistency(terms: &[u64; 4]) -> u64
    ensures { result ≡ inconsistency_by_words terms.now }
{
    if !terms_known(terms) {
        return UNKNOWN;
    }
    let of = terms_of(terms);
    of_inconsistency(of.inconsistency())
}

pub fn calculate_trailing_stop_price(
    side: u64,
    current_stop_price: u64,
    trail_amount: u64,
    last_reference_price: u64,
    current_market_price: u64,
    answer: &mut [u64; 3],
) -> u64
    ensures { Told preview_words
        (preview_by_words side current_stop_price trail_amount last_reference_price current_market_price)
        answer.old result answer.new }
{
    if !side_known(side) {
        return UNKNOWN;
    }
    let next = repricing::calculate_trailing_stop_price(
        stored_stops::side_from(side),
        Price(current_stop_price),
        trail_amount,
        Price(last_reference_price),
        Price(current_market_price),
    );
    *answer = preview_words(next);
    0
}
