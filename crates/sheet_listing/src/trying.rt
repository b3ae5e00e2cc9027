// Trial prices: which of them elect each stop.
use crate::lists::collect_all;
use book::{DATA_WORDS, LADDER_WORDS, LadderWords, MOST_RECORDS, StopWords};
use sheet_desk::{LINE, accepted, filled, tell};
use sheet_lines::names;
use word_groups::word;
use yubtomiq::yubtomiq_ladder;

fn ladder_of<'a>(
    s: &[u64],
    prices: &[u64],
    list: &'a mut [LadderWords],
) -> Result<&'a [LadderWords], u64> {
    let mut answer = [0u64; 1];
    accepted(yubtomiq_ladder(s, prices, list, &mut answer))?;
    Ok(filled(list, answer[0]))
}

fn tell_price(desk: &mut [u64], out: &mut [u8], bit: u64, price: u64) {
    if bit != 0 {
        tell(out, desk, names::LADDER_PRICE, &[price]);
    }
}

// The prices whose bits are set, the lowest bit for the first price.
fn tell_prices(desk: &mut [u64], out: &mut [u8], prices: &[u64], bits: u64) {
    let mut left = bits;
    for &price in prices {
        tell_price(desk, out, left % 2, price);
        left /= 2;
    }
}

// A stop with its entry: how many of the prices elect it, and which.
fn tell_entry(desk: &mut [u64], out: &mut [u8], prices: &[u64], stop: &StopWords, e: &LadderWords) {
    tell(
        out,
        desk,
        names::LADDER_STOP,
        &[stop[0], stop[1], stop[2], stop[3], stop[4], e[1]],
    );
    tell_prices(desk, out, prices, e[0]);
}

// The entries stand by rising sequence, as the stops that are collected do.
fn tell_ladder(
    s: &[u64],
    desk: &mut [u64],
    out: &mut [u8],
    prices: &[u64],
    entries: &[LadderWords],
) {
    let mut list = [[0u64; DATA_WORDS]; MOST_RECORDS];
    let stops = collect_all(s, &mut list);
    for (stop, e) in stops.iter().zip(entries) {
        tell_entry(desk, out, prices, stop, e);
    }
}

pub fn ladder(s: &[u64], desk: &mut [u64], out: &mut [u8], prices: &[u64]) -> Result<(), u64> {
    let line = word(&desk[..], LINE);
    let mut list = [[0u64; LADDER_WORDS]; MOST_RECORDS];
    let entries = ladder_of(s, prices, &mut list)?;
    tell(
        out,
        desk,
        names::LADDER,
        &[line, prices.len() as u64, entries.len() as u64],
    );
    tell_ladder(s, desk, out, prices, entries);
    Ok(())
}
