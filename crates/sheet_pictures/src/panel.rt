// A panel: its frame, the line of prices, and the stops' labels.
use crate::places::{BOTTOM, PANEL_PIXELS, TOP, across, beyond, down};
use crate::steps::{Mark, start};
use book::StopWords;
use sheet_desk::{ACROSS, CIRCLE, HIGH, LINE, LOW, PANEL, say};
use sheet_lines::names;
use word_groups::{set, word};

// Labels stand in bands of this height, one in each.
const BAND: u64 = 110;

const BANDS: usize = 44;

// Text stands so far below the line that it is about.
const TEXT_BELOW: u64 = 40;

// So many lines across a panel, and so many down, besides its first.
const LINES: u64 = 4;

// How high a picture of so many panels is, in pixels.
fn pixels(panels: u64) -> u64 {
    if panels > 0x1_0000_0000 {
        return 0;
    }
    panels * PANEL_PIXELS
}

pub fn head(desk: &mut [u64], out: &mut [u8], panels: u64) {
    let high = pixels(panels);
    say(out, desk, names::PICTURE_HEAD, &[high, high]);
    say(out, desk, names::PICTURE_STYLE, &[0]);
    say(out, desk, names::PICTURE_BACK, &[high]);
}

pub fn tail(desk: &mut [u64], out: &mut [u8]) {
    say(out, desk, names::PICTURE_END, &[0]);
}

// Makes the range reach a price.
fn take_in(desk: &mut [u64], price: u64) {
    let low = word(&desk[..], LOW);
    let high = word(&desk[..], HIGH);
    set(desk, LOW, low.min(price));
    set(desk, HIGH, high.max(price));
}

// The lowest and the highest of the prices and the stops. A stop that trails stays between them.
fn range(desk: &mut [u64], prints: &[u64], stops: &[StopWords]) {
    set(desk, LOW, word(prints, 0));
    set(desk, HIGH, word(prints, 0));
    for &price in prints {
        take_in(desk, price);
    }
    for stop in stops {
        take_in(desk, stop[4]);
    }
}

// A quarter of the way between two numbers, k of them; never beyond the second.
fn quarter(low: u64, high: u64, k: u64) -> u64 {
    if high < low {
        return low;
    }
    let part = (high - low) / LINES;
    match k {
        0 => low,
        1 => low + part,
        2 => low + 2 * part,
        3 => low + 3 * part,
        _ => high,
    }
}

fn grid(desk: &mut [u64], out: &mut [u8], n: u64) {
    let low = word(&desk[..], LOW);
    let high = word(&desk[..], HIGH);
    for k in 0..=LINES {
        let price = quarter(low, high, k);
        let y = down(price, low, high);
        say(
            out,
            desk,
            names::PICTURE_GRID,
            &[y, beyond(y, TEXT_BELOW), price],
        );
        let number = quarter(1, n, k);
        let x = across(number, n);
        say(out, desk, names::PICTURE_UNDER, &[x, x, number]);
    }
}

// The line of prices.
fn line(desk: &mut [u64], out: &mut [u8], prints: &[u64]) {
    let low = word(&desk[..], LOW);
    let high = word(&desk[..], HIGH);
    let n = prints.len() as u64;
    say(out, desk, names::PICTURE_LINE, &[0]);
    for (number, &price) in (1..=n).zip(prints) {
        let x = across(number, n);
        let y = down(price, low, high);
        say(out, desk, names::PICTURE_POINT, &[x, y]);
    }
    say(out, desk, names::PICTURE_LINE_END, &[0]);
}

// Takes the free band that is nearest to one, of two as near the lower in the picture; answers none if all are taken.
fn take_nearest(taken: &mut [bool; BANDS], at: usize) -> Option<usize> {
    let band = taken
        .iter()
        .enumerate()
        .rev()
        .filter(|(_, is_taken)| !**is_taken)
        .map(|(band, _)| band)
        .min_by_key(|band| band.abs_diff(at))?;
    *taken.get_mut(band)? = true;
    Some(band)
}

fn band_of(y: u64) -> usize {
    if y < TOP || y > BOTTOM {
        return 0;
    }
    ((y - TOP) / BAND) as usize
}

fn label_row(kind: u64) -> u64 {
    if kind < 2 {
        return names::PICTURE_LABEL_LONG;
    }
    names::PICTURE_LABEL
}

fn band_place(band: usize) -> u64 {
    if band >= BANDS {
        return BOTTOM;
    }
    TOP + band as u64 * BAND
}

// The identity of a stop beside where its line begins, in the nearest band that is free.
fn label(desk: &mut [u64], out: &mut [u8], stop: &StopWords, taken: &mut [bool; BANDS]) {
    let y = down(stop[4], word(&desk[..], LOW), word(&desk[..], HIGH));
    let Some(band) = take_nearest(taken, band_of(y)) else {
        return;
    };
    let at = band_place(band);
    say(
        out,
        desk,
        label_row(stop[0]),
        &[stop[3], beyond(at, TEXT_BELOW), stop[0], stop[1], stop[2]],
    );
    say(out, desk, names::PICTURE_LEADER, &[stop[3], at, y]);
}

fn labels(desk: &mut [u64], out: &mut [u8], stops: &[StopWords]) {
    let mut taken = [false; BANDS];
    for stop in stops {
        label(desk, out, stop, &mut taken);
    }
}

fn next_panel(desk: &mut [u64]) -> u64 {
    let at = word(&desk[..], PANEL);
    if at < 0x1000_0000_0000 {
        set(desk, PANEL, at + PANEL_PIXELS * 10);
    }
    at
}

fn frame(desk: &mut [u64], out: &mut [u8], prints: &[u64], stops: &[StopWords]) {
    grid(desk, out, prints.len() as u64);
    line(desk, out, prints);
    labels(desk, out, stops);
}

// The panel of a walk over these prints with these stops.
pub fn begin(
    desk: &mut [u64],
    out: &mut [u8],
    prints: &[u64],
    stops: &[StopWords],
    marks: &mut [Mark],
) {
    let n = prints.len() as u64;
    let number = word(&desk[..], LINE);
    set(desk, ACROSS, n);
    set(desk, CIRCLE, 0);
    start(stops, marks);
    range(desk, prints, stops);
    let at = next_panel(desk);
    say(
        out,
        desk,
        names::PICTURE_PANEL,
        &[at, number, n, stops.len() as u64],
    );
    frame(desk, out, prints, stops);
}

pub fn finish(desk: &mut [u64], out: &mut [u8]) {
    say(out, desk, names::PICTURE_PANEL_END, &[0]);
}
