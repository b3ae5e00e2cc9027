// A stop admitted, changed or cancelled.
use book::{DATA_WORDS, StopWords};
use host_words::{FOUND_WORDS, FoundWords};
use sheet_desk::{IN_USE, KILL, LINE, TRADE, accepted, tell_table, tell_text};
use sheet_lines::names;
use sheet_listing::{is_held, lined};
use word_groups::{four, rest, set, three, two, word};
use yubtomiq::{
    yubtomiq_admit_trailing_stop, yubtomiq_cancel_pending_stop, yubtomiq_pending_stop_order,
    yubtomiq_update_pending_stop,
};

// Each call by itself, where its contract is not in sight of what is printed: the proofs are quicker so.

fn admit_of(s: &mut [u64], desk: &[u64], side: u64, v: &[u64]) -> Result<(), u64> {
    let mut path = [0u64; 4];
    let mut sequence = [0u64; 1];
    let terms = [side, word(v, 3), word(v, 4), word(v, 5)];
    accepted(yubtomiq_admit_trailing_stop(
        s,
        &mut path,
        word(desk, KILL),
        &two(rest(desk, TRADE)),
        &three(v),
        &terms,
        word(v, 6),
        &four(rest(v, 7)),
        &mut sequence,
    ))
}

// A pending stop behind a word of its own; zeros where there is none.
fn found(s: &[u64], id: &[u64]) -> FoundWords {
    let mut stop = [0u64; FOUND_WORDS];
    yubtomiq_pending_stop_order(s, &three(id), &mut stop);
    stop
}

fn update_of(s: &mut [u64], desk: &[u64], id: &[u64], update: &[u64; 4]) -> Result<StopWords, u64> {
    let mut stop = [0u64; DATA_WORDS];
    accepted(yubtomiq_update_pending_stop(
        s,
        &three(id),
        update,
        &two(rest(desk, TRADE)),
        &mut stop,
    ))?;
    Ok(stop)
}

fn cancel_of(s: &mut [u64], id: &[u64]) -> Result<StopWords, u64> {
    let mut stop = [0u64; DATA_WORDS];
    accepted(yubtomiq_cancel_pending_stop(s, &three(id), &mut stop))?;
    Ok(stop)
}

// A stop behind the number of its line, in the rows of text and table that are given.
fn tell_stop(desk: &mut [u64], out: &mut [u8], text: u64, table: u64, stop: &FoundWords) {
    tell_text(out, desk, text, stop);
    tell_table(out, desk, table, stop);
}

// The row of an admitted stop: one with a holder says so.
fn admitted_row(stop: &FoundWords) -> u64 {
    if is_held(&stop[10..]) {
        return names::ADMITTED_HOLDER;
    }
    names::ADMITTED
}

fn say_admitted(s: &[u64], desk: &mut [u64], out: &mut [u8], id: &[u64]) {
    let mut stop = found(s, id);
    stop[0] = word(&desk[..], LINE);
    tell_stop(desk, out, admitted_row(&stop), names::TABLE_ADMITTED, &stop);
}

// A stop: identity, stop, watermark, trail, quantity, holder.
pub fn admit(
    s: &mut [u64],
    desk: &mut [u64],
    out: &mut [u8],
    side: u64,
    v: &[u64],
) -> Result<(), u64> {
    admit_of(s, &desk[..], side, v)?;
    set(desk, IN_USE, 1);
    say_admitted(&s[..], desk, out, v);
    Ok(())
}

// The values of a changed stop's line, by what it was asked to change.
fn changed_values(line: u64, change: u64, stop: &StopWords, was: u64) -> [u64; 9] {
    match change {
        0 => [line, stop[0], stop[1], stop[2], stop[7], stop[8], was, 0, 0],
        1 => [line, stop[0], stop[1], stop[2], stop[4], stop[8], was, 0, 0],
        2 => [
            line, stop[0], stop[1], stop[2], stop[4], stop[7], stop[8], was, 0,
        ],
        _ => [
            line, stop[0], stop[1], stop[2], stop[3], stop[4], stop[7], stop[8], was,
        ],
    }
}

fn changed_row(change: u64) -> u64 {
    match change {
        0 => names::QUANTITY_KEEPS,
        1 => names::PRICE_KEEPS,
        2 => names::BOTH_KEEPS,
        _ => names::REPLACED_KEEPS,
    }
}

// The row behind it says that the turn is lost.
fn turn_row(row: u64, was: u64, is: u64) -> u64 {
    if was == is {
        return row;
    }
    if row < names::DONE {
        return row + 1;
    }
    row
}

fn say_changed(desk: &mut [u64], out: &mut [u8], change: u64, stop: &StopWords, was: u64) {
    let line = word(&desk[..], LINE);
    let row = turn_row(changed_row(change), was, stop[8]);
    tell_text(out, desk, row, &changed_values(line, change, stop, was));
    tell_table(out, desk, names::TABLE_CHANGED, &lined(line, stop));
}

// Whether a change cancels: a quantity of zero, and nothing else, does.
fn cancels(update: &[u64; 4]) -> bool {
    update[0] == 0 && update[3] == 0
}

fn say_cancelled(desk: &mut [u64], out: &mut [u8], stop: &StopWords) {
    let line = word(&desk[..], LINE);
    tell_stop(
        desk,
        out,
        names::CANCELLED,
        names::TABLE_CANCELLED,
        &lined(line, stop),
    );
}

// A change of a pending stop: what to change, side, price, quantity. Its sequence before it says whether it keeps its turn.
pub fn change(
    s: &mut [u64],
    desk: &mut [u64],
    out: &mut [u8],
    id: &[u64],
    update: &[u64; 4],
) -> Result<(), u64> {
    let was = found(&s[..], id);
    let stop = update_of(s, &desk[..], id, update)?;
    if cancels(update) {
        say_cancelled(desk, out, &stop);
    } else {
        say_changed(desk, out, update[0], &stop, was[9]);
    }
    Ok(())
}

pub fn cancel(s: &mut [u64], desk: &mut [u64], out: &mut [u8], id: &[u64]) -> Result<(), u64> {
    let stop = cancel_of(s, id)?;
    say_cancelled(desk, out, &stop);
    Ok(())
}
