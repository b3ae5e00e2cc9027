// What a worksheet keeps from line to line, as words, and its output through a lent buffer.
//
// The bytes of a printed line are `line_of` of its row and values (sheet_lines). That the buffer reaches standard output
// is not proved.
#![tactic(auto)]

ghost use Rattle.std.specs.Prelude.{◌≡◌, ◌≢◌, ◌≤◌, length, set, take, MatchResult};

use book::{ELECTED_WORDS, MOST_MOVES, MOST_RECORDS, MOVED_WORDS};
use sheet_lines::{names, put_line};
use word_groups::{set, word};

// The places of the desk's words. Settings are four words together, as the library takes them, and so is the last trade
// with its flag.
pub const LINE: usize = 0;

pub const OUT: usize = 1;

pub const MODE: usize = 2;

pub const SETTINGS: usize = 3;

pub const KILL: usize = 3;

pub const COLLAR: usize = 4;

pub const NAMESPACE: usize = 5;

pub const TRADE: usize = 7;

pub const RECORDS: usize = 9;

pub const TICK: usize = 10;

pub const IN_USE: usize = 11;

pub const PRINTS: usize = 12;

pub const ENTRIES: usize = 13;

pub const STOPPED: usize = 14;

pub const TURN: usize = 15;

pub const MOVES: usize = 16;

// The print that a run is at, by its number and its price; whether the run falls; how many stops it began with.
pub const NUMBER: usize = 17;

pub const PRICE: usize = 18;

pub const FALLS: usize = 19;

pub const BEGAN: usize = 20;

// Where the next panel of a picture begins; the lowest and the highest price of a panel and how many prints it has; and
// of circles beside each other how far across the first stands, and how far down and across the last.
pub const PANEL: usize = 21;

pub const LOW: usize = 22;

pub const HIGH: usize = 23;

pub const ACROSS: usize = 24;

pub const CIRCLE: usize = 25;

// Whether a run is drawn.
pub const DRAWS: usize = 28;

pub const DESK_WORDS: usize = 29;

// Behind these words, what was asked: the number of the line, 0 where there is none; how many it moves and elects; and
// the entries of both lists, each with room for the most.
pub const ASKED_LINE: usize = DESK_WORDS;

pub const ASKED_MOVES: usize = 30;

pub const ASKED_ELECTS: usize = 31;

pub const ASKED_ELECTED: usize = 32;

pub const ASKED_MOVED: usize = ASKED_ELECTED + ELECTED_WORDS * MOST_RECORDS;

// With what was asked.
pub const WHOLE_DESK_WORDS: usize = ASKED_MOVED + MOVED_WORDS * MOST_MOVES;

// What is written: text, a table, or a picture.
pub const TEXT: u64 = 0;

pub const TABLE: u64 = 1;

pub const PICTURE: u64 = 2;

// Empties the buffer up to a place.
fn flush(out: &[u8], at: usize)
    requires { at ≤ length out.now }
{
    io::write_all(1, &out[..at]);
}

// Where the next line goes.
fn place(out: &[u8], desk: &[u64]) -> usize
    ensures { result ≤ length out.now }
{
    let at = word(desk, OUT) as usize;
    if at <= out.len() { at } else { 0 }
}

// Writes a line at a place, and answers whether it had room.
fn put(out: &mut [u8], desk: &mut [u64], at: usize, row: u64, values: &[u64]) -> bool
    requires { at ≤ length out.old }
{
    let next = put_line(out, at, row, values);
    let fits = next <= out.len();
    if fits {
        set(desk, OUT, next as u64);
    }
    fits
}

// Writes a line; where it has no room, the buffer is emptied first.
pub fn say(out: &mut [u8], desk: &mut [u64], row: u64, values: &[u64]) {
    let at = place(&out[..], &desk[..]);
    if put(out, desk, at, row, values) {
        return;
    }
    flush(&out[..], at);
    if !put(out, desk, 0, row, values) {
        set(desk, OUT, 0);
    }
}

// The last trade is at a price.
pub fn traded(desk: &mut [u64], price: u64)
    ensures { desk.new ≡ set (set desk.old 7 1) 8 price }
{
    set(desk, TRADE, 1);
    set(desk, TRADE + 1, price);
}

// Writes what stands in the buffer.
pub fn end(out: &[u8], desk: &[u64]) {
    let at = place(out, desk);
    flush(out, at);
}

// A line where text, and one where a table is asked for; a picture has neither.
pub fn tell(out: &mut [u8], desk: &mut [u64], row: u64, values: &[u64]) {
    if word(&desk[..], MODE) != PICTURE {
        say(out, desk, row, values);
    }
}

// A line where one of the three alone is asked for.
fn tell_in(mode: u64, out: &mut [u8], desk: &mut [u64], row: u64, values: &[u64]) {
    if word(&desk[..], MODE) == mode {
        say(out, desk, row, values);
    }
}

pub fn tell_text(out: &mut [u8], desk: &mut [u64], row: u64, values: &[u64]) {
    tell_in(TEXT, out, desk, row, values);
}

pub fn tell_table(out: &mut [u8], desk: &mut [u64], row: u64, values: &[u64]) {
    tell_in(TABLE, out, desk, row, values);
}

pub fn tell_picture(out: &mut [u8], desk: &mut [u64], row: u64, values: &[u64]) {
    tell_in(PICTURE, out, desk, row, values);
}

// What a call of the library for hosts answers as its number: 0, or that of the refusal.
pub fn accepted(number: u64) -> Result<(), u64>
    ensures { MatchResult result (λ _. number ≡ 0) (λ e. (e ≡ number) × (number ≢ 0)) }
{
    if number == 0 { Ok(()) } else { Err(number) }
}

// The first entries of a list, as many as a call answers that it put there; all where there are fewer.
pub fn filled<T>(list: &[T], many: u64) -> &[T]
    ensures { result.now ≡ take many list.now }
{
    list.get(..many as usize).unwrap_or(list)
}

// The refusal of a run without prints, or with too many.
pub const PRICE_COUNT: u64 = 16;

// A run, refused where it has no prints.
pub fn some_prints(run: &[u64]) -> Result<&[u64], u64>
    ensures { MatchResult result (λ some. (some.now ≡ run.now) × (1 ≤ length run.now)) (λ e. (e ≡ 16) × (length run.now ≡ 0)) }
{
    if run.is_empty() {
        Err(PRICE_COUNT)
    } else {
        Ok(run)
    }
}

// The refusal of a commit whose lists are not those that the store gives.
const LISTS_DIFFER: u64 = 20;

// The row of a refusal's sentence. Its row stands elsewhere than those of the others, which stand one behind the
// other, at their numbers.
fn sentence(number: u64) -> u64 {
    if number == LISTS_DIFFER {
        return names::REFUSED_20;
    }
    if number > names::MOST_REFUSALS {
        return names::REFUSED;
    }
    names::REFUSED + number
}

// Says that a line was refused, and why.
pub fn refused(out: &mut [u8], desk: &mut [u64], number: u64) {
    let line = word(&desk[..], LINE);
    tell(out, desk, sentence(number), &[line, number]);
    tell_picture(out, desk, names::PICTURE_REFUSED, &[line, number]);
}
