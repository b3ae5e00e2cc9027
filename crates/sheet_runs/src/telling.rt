// What happens at a print: moves and elections, told as text, as rows of a table, or drawn.
use book::{DATA_WORDS, ElectedWords, MovedWords, StopWords};
use sheet_desk::{BEGAN, DRAWS, LINE, NUMBER, PRICE, TURN, filled, tell_table, tell_text};
use sheet_lines::names;
use sheet_pictures::Mark;
use word_groups::{set, word};

// The words of an identity, with which a stop and an entry of either list begin.
const ID_WORDS: usize = 3;

// The place of an identity in a list, from a place on.
fn seek(stops: &[StopWords], id: &[u64], from: usize) -> Option<usize> {
    stops
        .iter()
        .enumerate()
        .skip(from)
        .find(|(_, stop)| &stop[..ID_WORDS] == id)
        .map(|(at, _)| at)
}

// The place of an identity, looked for from a place on and then before it: one print's moves come much in the order of
// the last one's. The list's end, if it is not there.
fn find(stops: &[StopWords], id: &[u64], from: usize) -> usize {
    seek(stops, id, from)
        .or_else(|| seek(stops, id, 0))
        .unwrap_or(stops.len())
}

fn stop_at(stops: &[StopWords], at: usize) -> StopWords {
    stops.get(at).copied().unwrap_or([0; DATA_WORDS])
}

// A move, by the stop as it was: it has the print's price for its watermark after it.
fn tell_move(desk: &mut [u64], out: &mut [u8], was: &StopWords, m: &MovedWords) {
    let price = word(&desk[..], PRICE);
    let line = word(&desk[..], LINE);
    let number = word(&desk[..], NUMBER);
    tell_text(
        out,
        desk,
        names::MOVED,
        &[m[0], m[1], m[2], was[4], m[3], was[5], price],
    );
    let cells = [
        line, number, price, m[0], m[1], m[2], m[3], price, was[4], was[5],
    ];
    tell_table(out, desk, names::TABLE_MOVED, &cells);
}

// The moves of a print, by the stops as they were before it.
pub fn tell_moves(desk: &mut [u64], out: &mut [u8], stops: &[StopWords], moved: &[MovedWords]) {
    let mut from = 0;
    for m in moved {
        let at = find(stops, &m[..ID_WORDS], from);
        tell_move(desk, out, &stop_at(stops, at), m);
        from = at.wrapping_add(1);
    }
}

// Draws a move, and keeps the new stop.
fn draw_move(
    desk: &mut [u64],
    out: &mut [u8],
    stops: &mut [StopWords],
    at: usize,
    m: &MovedWords,
    marks: &mut [Mark],
) {
    if let Some(stop) = stops.get_mut(at) {
        stop[4] = m[3];
        sheet_pictures::moved(desk, out, stop[3], at, m[3], marks);
    }
}

// The moves of a print drawn, by the stops as they were before the walk and have moved since.
pub fn draw_moves(
    desk: &mut [u64],
    out: &mut [u8],
    stops: &mut [StopWords],
    moved: &[MovedWords],
    marks: &mut [Mark],
) {
    let many = word(&desk[..], BEGAN);
    let mut from = 0;
    for m in moved {
        let at = find(filled(&stops[..], many), &m[..ID_WORDS], from);
        draw_move(desk, out, stops, at, m, marks);
        from = at.wrapping_add(1);
    }
}

// The next turn of a run.
pub fn next_turn(desk: &mut [u64]) -> u64 {
    let turn = word(&desk[..], TURN);
    if turn < 0x1_0000_0000 {
        set(desk, TURN, turn + 1);
        return turn + 1;
    }
    turn
}

// An election in a turn, in a row of text that ends with the trigger price or before it, and in one of a table.
pub fn tell_elected(
    desk: &mut [u64],
    out: &mut [u8],
    row: u64,
    number: u64,
    turn: u64,
    e: &ElectedWords,
) {
    sheet_listing::tell_elected(desk, out, row, names::TABLE_ELECTED, number, turn, e);
}

// An election: told, or drawn.
fn one_elected(
    desk: &mut [u64],
    out: &mut [u8],
    stops: &[StopWords],
    e: &ElectedWords,
    marks: &mut [Mark],
) {
    let turn = next_turn(desk);
    if word(&desk[..], DRAWS) == 0 {
        let number = word(&desk[..], NUMBER);
        tell_elected(desk, out, names::ELECTED, number, turn, e);
        return;
    }
    let began = filled(stops, word(&desk[..], BEGAN));
    let at = find(began, &e[..ID_WORDS], 0);
    sheet_pictures::elected(desk, out, e[3], at, e[4], turn, marks);
}

// The elected of a print, in turn.
pub fn elections(
    desk: &mut [u64],
    out: &mut [u8],
    stops: &[StopWords],
    list: &[ElectedWords],
    marks: &mut [Mark],
) {
    for e in list {
        one_elected(desk, out, stops, e, marks);
    }
}
