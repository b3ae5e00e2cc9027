// The step lines of stops, and the circles of those elected. A stop is known by its place in the list that was collected
// before the walk, and so is its mark; a move that is too close to the last to be drawn changes the mark's stop alone.
use crate::places::{LEFT, RIGHT, across, beyond, down};
use book::StopWords;
use sheet_desk::{ACROSS, CIRCLE, HIGH, LOW, NUMBER, say};
use sheet_lines::names;
use word_groups::{set, word};

// How far the line of a stop is drawn, at what price it is drawn there, and what the stop is.
#[derive(Clone, Copy)]
pub struct Mark {
    pub across: u64,
    pub price: u64,
    pub stop: u64,
}

// The mark of a stop whose line has ended, or has not begun.
pub const NO_MARK: Mark = Mark {
    across: 0,
    price: 0,
    stop: 0,
};

// Moves closer together than this are drawn as one: two pixels.
const CLOSE: u64 = 20;

// Circles closer together than this stand beside each other.
const CIRCLE_WIDTH: u64 = 150;

// The number of a turn stands so far below its circle's middle.
const TURN_BELOW: u64 = 28;

fn height(desk: &[u64], price: u64) -> u64 {
    down(price, word(desk, LOW), word(desk, HIGH))
}

// Where the print that the run is at stands.
fn here(desk: &[u64]) -> u64 {
    across(word(desk, NUMBER), word(desk, ACROSS))
}

// The mark at a place; none beyond the last.
fn mark_at(marks: &[Mark], at: usize) -> Mark {
    marks.get(at).copied().unwrap_or(NO_MARK)
}

fn set_mark(marks: &mut [Mark], at: usize, mark: Mark) {
    if let Some(place) = marks.get_mut(at) {
        *place = mark;
    }
}

// Draws on from where the line of a stop ends: to its stop, to a place across, and then to a price.
fn draw(
    desk: &mut [u64],
    out: &mut [u8],
    side: u64,
    at: usize,
    x: u64,
    price: u64,
    marks: &mut [Mark],
) {
    let mark = mark_at(&marks[..], at);
    let y = height(&desk[..], mark.price);
    let level = height(&desk[..], mark.stop);
    let to = height(&desk[..], price);
    say(
        out,
        desk,
        names::PICTURE_STEP,
        &[side, mark.across, y, level, x, to],
    );
    let drawn = Mark {
        across: x,
        price,
        stop: price,
    };
    set_mark(marks, at, drawn);
}

fn is_close(a: u64, b: u64) -> bool {
    b >= a && b - a < CLOSE
}

// A stop moves at a print.
pub fn moved(
    desk: &mut [u64],
    out: &mut [u8],
    side: u64,
    at: usize,
    price: u64,
    marks: &mut [Mark],
) {
    let x = here(&desk[..]);
    let mark = mark_at(&marks[..], at);
    if is_close(mark.across, x) {
        set_mark(
            marks,
            at,
            Mark {
                stop: price,
                ..mark
            },
        );
        return;
    }
    draw(desk, out, side, at, x, price, marks);
}

fn is_near(a: u64, b: u64) -> bool {
    a.abs_diff(b) < CIRCLE_WIDTH
}

// The middle of a panel.
const MIDDLE: u64 = (LEFT + RIGHT) / 2;

// Beside the last of some circles, the first of which stands at x: to the left in the right half, to the right in the
// left one.
fn beside(x: u64, last: u64) -> u64 {
    if x <= MIDDLE {
        return last.wrapping_add(CIRCLE_WIDTH);
    }
    last.checked_sub(CIRCLE_WIDTH).unwrap_or(last)
}

// Whether a circle would cover the ones before it: it is near the first of them across, and near the last one down.
fn joins(desk: &[u64], x: u64, y: u64) -> bool {
    is_near(word(desk, CIRCLE), x) && is_near(word(desk, CIRCLE + 1), y)
}

// Keeps where a circle went: of those beside each other the first, and of the last how far down and how far across.
fn keep_circle(desk: &mut [u64], first: u64, y: u64, c: u64) {
    set(desk, CIRCLE, first);
    set(desk, CIRCLE + 1, y);
    set(desk, CIRCLE + 2, c);
}

// Where a circle goes: on its stop, or beside the circles before it where they would overlap.
fn circle_place(desk: &mut [u64], x: u64, y: u64) -> u64 {
    let first = word(&desk[..], CIRCLE);
    if joins(&desk[..], x, y) {
        let c = beside(first, word(&desk[..], CIRCLE + 2));
        keep_circle(desk, first, y, c);
        return c;
    }
    keep_circle(desk, x, y, x);
    x
}

fn circle(desk: &mut [u64], out: &mut [u8], side: u64, x: u64, price: u64, turn: u64) {
    let y = height(&desk[..], price);
    let c = circle_place(desk, x, y);
    say(
        out,
        desk,
        names::PICTURE_ELECTED,
        &[side, c, y, c, beyond(y, TURN_BELOW), turn],
    );
}

// A stop is elected at a print, at the price that its stop is then, in a turn. Its line ends there.
pub fn elected(
    desk: &mut [u64],
    out: &mut [u8],
    side: u64,
    at: usize,
    price: u64,
    turn: u64,
    marks: &mut [Mark],
) {
    let x = here(&desk[..]);
    draw(desk, out, side, at, x, price, marks);
    set_mark(marks, at, NO_MARK);
    circle(desk, out, side, x, price, turn);
}

// A stop that is left is drawn to the end.
fn remain(desk: &mut [u64], out: &mut [u8], at: usize, stop: &StopWords, marks: &mut [Mark]) {
    if mark_at(&marks[..], at).across != 0 {
        draw(desk, out, stop[3], at, RIGHT, stop[4], marks);
    }
}

pub fn remaining(desk: &mut [u64], out: &mut [u8], stops: &[StopWords], marks: &mut [Mark]) {
    for (at, stop) in stops.iter().enumerate() {
        remain(desk, out, at, stop, marks);
    }
}

// Every stop's line begins at the panel's left end, at its stop.
pub fn start(stops: &[StopWords], marks: &mut [Mark]) {
    for (mark, stop) in marks.iter_mut().zip(stops) {
        *mark = Mark {
            across: LEFT,
            price: stop[4],
            stop: stop[4],
        };
    }
}
