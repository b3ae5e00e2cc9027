// Stops listed, those of a holder cancelled, and totals.
use crate::words::{is_held, lined};
use book::{DATA_WORDS, MOST_RECORDS, StopWords};
use sheet_desk::{LINE, accepted, filled, tell_table, tell_text};
use sheet_lines::names;
use word_groups::word;
use yubtomiq::{yubtomiq_collect, yubtomiq_mass_cancel, yubtomiq_pending_stop_quantity};

// Every stop price, and the stops of a holder.
const EVERY: [u64; 5] = [2, 0, 0xffff_ffff_ffff_ffff, 0, 0];

fn of_holder(h: &[u64]) -> [u64; 5] {
    [0, word(h, 0), word(h, 1), word(h, 2), word(h, 3)]
}

// Each call by itself: what it lists.

fn collect_of<'a>(
    s: &[u64],
    selector: &[u64; 5],
    list: &'a mut [StopWords],
) -> Result<&'a [StopWords], u64> {
    let mut answer = [0u64; 1];
    accepted(yubtomiq_collect(s, selector, list, &mut answer))?;
    Ok(filled(list, answer[0]))
}

// Lists every stop of a store.
pub fn collect_all<'a>(s: &[u64], list: &'a mut [StopWords]) -> &'a [StopWords] {
    collect_of(s, &EVERY, list).unwrap_or(&[])
}

fn mass_cancel_of<'a>(
    s: &mut [u64],
    selector: &[u64; 5],
    list: &'a mut [StopWords],
) -> Result<&'a [StopWords], u64> {
    let mut answer = [0u64; 1];
    accepted(yubtomiq_mass_cancel(s, selector, list, &mut answer))?;
    Ok(filled(list, answer[0]))
}

fn totals_of(s: &[u64]) -> Result<[u64; 4], u64> {
    let mut answer = [0u64; 4];
    accepted(yubtomiq_pending_stop_quantity(s, &mut answer))?;
    Ok(answer)
}

fn stop_row(stop: &StopWords) -> u64 {
    if is_held(&stop[9..]) {
        return names::STOP_HOLDER;
    }
    names::STOP
}

// One stop of a list.
fn tell_stop(desk: &mut [u64], out: &mut [u8], table: u64, stop: &StopWords) {
    let line = word(&desk[..], LINE);
    tell_text(out, desk, stop_row(stop), stop);
    tell_table(out, desk, table, &lined(line, stop));
}

fn tell_stops(desk: &mut [u64], out: &mut [u8], table: u64, stops: &[StopWords]) {
    for stop in stops {
        tell_stop(desk, out, table, stop);
    }
}

// The listed stops of a selector behind a heading, a row that takes the line, their number, and the words of a holder.
fn tell_listed(
    desk: &mut [u64],
    out: &mut [u8],
    selector: &[u64; 5],
    row: u64,
    table: u64,
    stops: &[StopWords],
) {
    let line = word(&desk[..], LINE);
    tell_text(
        out,
        desk,
        row,
        &[
            line,
            stops.len() as u64,
            selector[1],
            selector[2],
            selector[3],
            selector[4],
        ],
    );
    tell_stops(desk, out, table, stops);
}

// The stops of a selector.
fn listed(
    s: &[u64],
    desk: &mut [u64],
    out: &mut [u8],
    selector: &[u64; 5],
    row: u64,
) -> Result<(), u64> {
    let mut list = [[0u64; DATA_WORDS]; MOST_RECORDS];
    let stops = collect_of(s, selector, &mut list)?;
    tell_listed(desk, out, selector, row, names::TABLE_LISTED, stops);
    Ok(())
}

pub fn list(s: &[u64], desk: &mut [u64], out: &mut [u8]) -> Result<(), u64> {
    listed(s, desk, out, &EVERY, names::LIST)
}

pub fn list_holder(s: &[u64], desk: &mut [u64], out: &mut [u8], holder: &[u64]) -> Result<(), u64> {
    listed(s, desk, out, &of_holder(holder), names::LIST_HOLDER)
}

pub fn cancel_holder(
    s: &mut [u64],
    desk: &mut [u64],
    out: &mut [u8],
    holder: &[u64],
) -> Result<(), u64> {
    let mut list = [[0u64; DATA_WORDS]; MOST_RECORDS];
    let h = of_holder(holder);
    let stops = mass_cancel_of(s, &h, &mut list)?;
    tell_listed(
        desk,
        out,
        &h,
        names::CANCELLED_HOLDER,
        names::TABLE_CANCELLED,
        stops,
    );
    Ok(())
}

fn table_totals(desk: &mut [u64], out: &mut [u8], t: &[u64; 4]) {
    let line = word(&desk[..], LINE);
    tell_table(out, desk, names::TABLE_TOTAL, &[line, 1, t[0], t[1]]);
    tell_table(out, desk, names::TABLE_TOTAL, &[line, 0, t[2], t[3]]);
}

// The pending quantity of each side.
pub fn totals(s: &[u64], desk: &mut [u64], out: &mut [u8]) -> Result<(), u64> {
    let line = word(&desk[..], LINE);
    let t = totals_of(s)?;
    tell_text(out, desk, names::TOTALS, &[line, t[0], t[1], t[2], t[3]]);
    table_totals(desk, out, &t);
    Ok(())
}

fn totals_left(s: &[u64], desk: &mut [u64], out: &mut [u8]) {
    let t = totals_of(s).unwrap_or([0; 4]);
    tell_text(out, desk, names::TOTALS_LEFT, &t);
    table_totals(desk, out, &t);
}

fn stops_left(s: &[u64], desk: &mut [u64], out: &mut [u8]) {
    let mut list = [[0u64; DATA_WORDS]; MOST_RECORDS];
    let stops = collect_all(s, &mut list);
    tell_text(out, desk, names::LEFT, &[stops.len() as u64]);
    tell_stops(desk, out, names::TABLE_LEFT, stops);
}

// What a run leaves: the stops and the totals.
pub fn left(s: &[u64], desk: &mut [u64], out: &mut [u8]) {
    stops_left(s, desk, out);
    totals_left(s, desk, out);
}
