// A run walked step by step, and by its two ends alone.
use crate::telling::{draw_moves, elections, tell_moves};
use book::{
    DATA_WORDS, ELECTED_WORDS, ElectedWords, MOST_RECORDS, MOVED_WORDS, MovedWords, STORE_WORDS,
    StopWords,
};
use sheet_desk::{
    BEGAN, DRAWS, FALLS, LINE, MODE, MOVES, NUMBER, PICTURE, PRICE, PRINTS, SETTINGS, TRADE, TURN,
    accepted, filled, some_prints, tell_table, tell_text, traded,
};
use sheet_lines::names;
use sheet_listing::{collect_all, left};
use sheet_pictures::{Mark, NO_MARK};
use word_groups::{copy, four, rest, set, two, word};
use yubtomiq::yubtomiq_step;

// A step at the print that the run is at, come from the last trade: how many it moves and elects.
fn step_of(
    s: &mut [u64],
    desk: &[u64],
    elected: &mut [ElectedWords],
    moved: &mut [MovedWords],
) -> Result<[u64; 2], u64> {
    let mut answer = [0u64; 2];
    accepted(yubtomiq_step(
        s,
        &four(rest(desk, SETTINGS)),
        word(desk, FALLS),
        &two(rest(desk, TRADE)),
        word(desk, PRICE),
        elected,
        moved,
        &mut answer,
    ))?;
    Ok(answer)
}

fn add_moves(desk: &mut [u64], moves: u64) {
    let so_far = word(&desk[..], MOVES);
    set(desk, MOVES, so_far.wrapping_add(moves));
}

// The moves of a print: told by the stops of the store before it, or drawn by those of the walk.
fn moves(
    before: &[u64],
    desk: &mut [u64],
    out: &mut [u8],
    stops: &mut [StopWords],
    moved: &[MovedWords],
    marks: &mut [Mark],
) {
    if moved.is_empty() {
        return;
    }
    add_moves(desk, moved.len() as u64);
    if word(&desk[..], DRAWS) != 0 {
        draw_moves(desk, out, stops, moved, marks);
        return;
    }
    let then = collect_all(before, stops);
    tell_moves(desk, out, then, moved);
}

// Says that the run is at a print.
fn tell_print(desk: &mut [u64], out: &mut [u8]) {
    let line = word(&desk[..], LINE);
    let number = word(&desk[..], NUMBER);
    let price = word(&desk[..], PRICE);
    tell_text(out, desk, names::PRINT, &[number, price]);
    tell_table(out, desk, names::TABLE_PRINT, &[line, number, price]);
}

// What a step did.
fn happened(
    before: &[u64],
    desk: &mut [u64],
    out: &mut [u8],
    stops: &mut [StopWords],
    elected: &[ElectedWords],
    moved: &[MovedWords],
    marks: &mut [Mark],
) {
    tell_print(desk, out);
    moves(before, desk, out, stops, moved, marks);
    elections(desk, out, &stops[..], elected, marks);
}

// A step at the print that the run is at, and what happened; its price is the last trade then.
fn step(
    s: &mut [u64],
    before: &mut [u64],
    desk: &mut [u64],
    out: &mut [u8],
    stops: &mut [StopWords],
    marks: &mut [Mark],
) -> Result<(), u64> {
    let mut elected = [[0u64; ELECTED_WORDS]; MOST_RECORDS];
    let mut moved = [[0u64; MOVED_WORDS]; MOST_RECORDS];
    copy(&s[..], before);
    let counts = step_of(s, &desk[..], &mut elected, &mut moved)?;
    happened(
        &before[..],
        desk,
        out,
        stops,
        filled(&elected, counts[1]),
        filled(&moved, counts[0]),
        marks,
    );
    Ok(())
}

// Goes on to a print; the one before it is the last trade.
fn at_print(desk: &mut [u64], number: u64, price: u64) {
    set(desk, NUMBER, number);
    set(desk, PRICE, price);
}

// A step at a print, and the print is the last trade.
fn print(
    s: &mut [u64],
    desk: &mut [u64],
    out: &mut [u8],
    number: u64,
    price: u64,
    stops: &mut [StopWords],
    marks: &mut [Mark],
) -> Result<(), u64> {
    let mut before = [0u64; STORE_WORDS];
    at_print(desk, number, price);
    let r = step(s, &mut before, desk, out, stops, marks);
    traded(desk, price);
    r
}

// Steps at prints, numbered from one on, each but the first by so many more.
fn prints(
    s: &mut [u64],
    desk: &mut [u64],
    out: &mut [u8],
    run: &[u64],
    by: u64,
    stops: &mut [StopWords],
    marks: &mut [Mark],
) -> Result<(), u64> {
    let mut number: u64 = 1;
    for &price in run {
        print(s, desk, out, number, price, stops, marks)?;
        number = number.wrapping_add(by);
    }
    Ok(())
}

// The last price of a run.
pub fn last_of(run: &[u64]) -> u64 {
    word_groups::last(run)
}

// Whether a run falls as a whole, which decides which side comes first where it stands still: 1 if its last price is no
// higher than its first.
fn falls(run: &[u64]) -> u64 {
    u64::from(last_of(run) <= word(run, 0))
}

// The steps, with the picture's panel around them.
fn drawn(
    s: &mut [u64],
    desk: &mut [u64],
    out: &mut [u8],
    run: &[u64],
    stops: &mut [StopWords],
    marks: &mut [Mark],
) -> Result<(), u64> {
    let many = word(&desk[..], BEGAN);
    sheet_pictures::begin(desk, out, run, filled(&stops[..], many), marks);
    let r = prints(s, desk, out, run, 1, stops, marks);
    sheet_pictures::remaining(desk, out, filled(&stops[..], many), marks);
    sheet_pictures::finish(desk, out);
    r
}

// Whether a run is drawn: of a picture, the walks are.
fn draws(desk: &[u64], row: u64) -> u64 {
    u64::from(word(desk, MODE) == PICTURE && row == names::WALK)
}

// What a run begins with: no turns and no moves, its direction, and the stops.
fn begin(s: &[u64], desk: &mut [u64], row: u64, run: &[u64], stops: &mut [StopWords]) {
    let many = collect_all(s, stops).len() as u64;
    let drawn = draws(&desk[..], row);
    set(desk, DRAWS, drawn);
    set(desk, TURN, 0);
    set(desk, MOVES, 0);
    set(desk, FALLS, falls(run));
    set(desk, BEGAN, many);
}

fn stepped(
    s: &mut [u64],
    desk: &mut [u64],
    out: &mut [u8],
    row: u64,
    run: &[u64],
    by: u64,
) -> Result<(), u64> {
    let mut stops = [[0u64; DATA_WORDS]; MOST_RECORDS];
    let mut marks = [NO_MARK; MOST_RECORDS];
    begin(&s[..], desk, row, run, &mut stops);
    if word(&desk[..], DRAWS) != 0 {
        return drawn(s, desk, out, run, &mut stops, &mut marks);
    }
    prints(s, desk, out, run, by, &mut stops, &mut marks)
}

// What is left of a run: nothing, as its prints are trades now.
fn summed(s: &[u64], desk: &mut [u64], out: &mut [u8]) {
    let elected = word(&desk[..], TURN);
    let moves = word(&desk[..], MOVES);
    tell_text(out, desk, names::SUM, &[elected, moves]);
    left(s, desk, out);
    set(desk, PRINTS, 0);
}

// The steps of a run behind its heading, and what they leave.
fn evaluated(
    s: &mut [u64],
    desk: &mut [u64],
    out: &mut [u8],
    row: u64,
    whole: &[u64],
    run: &[u64],
    by: u64,
) -> Result<(), u64> {
    let line = word(&desk[..], LINE);
    tell_text(
        out,
        desk,
        row,
        &[line, whole.len() as u64, word(whole, 0), last_of(whole)],
    );
    stepped(s, desk, out, row, run, by)?;
    summed(&s[..], desk, out);
    Ok(())
}

// A step at every print.
pub fn walk(s: &mut [u64], desk: &mut [u64], out: &mut [u8], run: &[u64]) -> Result<(), u64> {
    let prints = some_prints(run)?;
    evaluated(s, desk, out, names::WALK, prints, prints, 1)
}

// A step at the first print and, if it differs, one at the last: what a segment does.
pub fn ends(s: &mut [u64], desk: &mut [u64], out: &mut [u8], run: &[u64]) -> Result<(), u64> {
    let prints = some_prints(run)?;
    let by = (prints.len() as u64).wrapping_sub(1);
    let ends = [word(prints, 0), last_of(prints)];
    let many = if ends[0] == ends[1] { 1 } else { 2 };
    evaluated(s, desk, out, names::ENDS, prints, &ends[..many], by)
}
