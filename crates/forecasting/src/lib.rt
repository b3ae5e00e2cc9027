// The forecast of document 01: what a walk elects, from a store, a price count and the prices as bytes. Every refusal is
// the walk's own, which is lent no words where the bytes are no words, and no prices where these are not as many as
// their count.
#![tactic(auto)]

ghost use Rattle.std.specs.Prelude.{◌≡◌, map, length};
ghost use Rattle.book.specs.Calls.{written};
ghost use Rattle.book.specs.Sizes.{most_records, store_length, most_prices};
ghost use Rattle.error.specs.Answer.{told_answer};
ghost use Rattle.book.specs.Entries.{elected_words};
ghost use Rattle.forecast_input.specs.Input.{words_of, store_in, prices_in, forecast_settings, forecast_of};

use book::{Counts, ElectedWords, MOST_PRICES, STORE_WORDS, Settings};
use error::Refusal;
use evaluate_walk::walk;
use forecast_input::{price_count, read_words, store_length, word_count};
use uuid_v5::Uuid;

// The settings of a forecast: kill switch off, no collar, namespace zero.
fn settings() -> Settings
    ensures { result ≡ forecast_settings }
{
    Settings {
        kill: false,
        protection: None,
        namespace: Uuid { high: 0, low: 0 },
    }
}

// Walks an input's store along its prices, in slices that are as long as these.
fn walk_input(
    bytes: &[u8],
    store: &mut [u64],
    prices: &mut [u64],
    elected: &mut [ElectedWords],
) -> Result<Counts, Refusal>
    requires store_len { length store.old ≡ length (store_in (words_of bytes.now)) }
    requires prices_len { length prices.old ≡ length (prices_in (words_of bytes.now)) }
    requires elected_len { length elected.old ≡ most_records }
    ensures result_value { told_answer result ≡ (forecast_of bytes.now).answer }
    ensures elected_after { elected.new ≡ written (map elected_words (forecast_of bytes.now).elected) elected.old }
{
    let count = word_count(bytes);
    let at = count - prices.len();
    read_words(bytes, 0, store);
    read_words(bytes, at, prices);
    walk(store, settings(), None, &prices[..], elected)
}

fn longest_store() -> [u64; STORE_WORDS]
    ensures { store_length most_records ≡ length result }
{
    [0; STORE_WORDS]
}

fn most_prices() -> [u64; MOST_PRICES]
    ensures { most_prices ≡ length result }
{
    [0; MOST_PRICES]
}

// Walks an input's store along its prices, the price before them absent, and lists what is elected in a list as
// long as a store can need. Refused: what the walk refuses, of no words where the bytes are no multiple of 8 (1),
// of no prices where these are not as many as their count (16).
pub fn forecast(bytes: &[u8], elected: &mut [ElectedWords]) -> Result<Counts, Refusal>
    requires { length elected.old ≡ most_records }
    ensures result_value { told_answer result ≡ (forecast_of bytes.now).answer }
    ensures elected_after { elected.new ≡ written (map elected_words (forecast_of bytes.now).elected) elected.old }
{
    let mut store = longest_store();
    let mut prices = most_prices();
    let n = store_length(bytes);
    let c = price_count(bytes);
    walk_input(bytes, &mut store[..n], &mut prices[..c], elected)
}
