// A command that was read, run by its kind.
use crate::kinds;
use book::{MOST_PRICES, MOST_TRIAL_PRICES, SCRIPT_ENTRY_WORDS};
use sheet_commands::put_numbers;
use sheet_desk::{ENTRIES, LINE, PRICE_COUNT, PRINTS, RECORDS, TICK, tell};
use sheet_lines::names;
use word_groups::{first, rest, set, word};

// Lines that set something.
fn settings(
    kind: u64,
    v: &[u64],
    s: &mut [u64],
    desk: &mut [u64],
    out: &mut [u8],
) -> Result<(), u64> {
    let n = word(v, 0);
    match kind {
        kinds::RECORDS => {
            let tick = word(&desk[..], TICK);
            sheet_stops::store(s, desk, out, n, tick)?;
        }
        kinds::TICK => {
            let records = word(&desk[..], RECORDS);
            sheet_stops::store(s, desk, out, records, n)?;
        }
        kinds::COLLAR => sheet_stops::collar(desk, out, n, word(v, 1))?,
        kinds::NAMESPACE => sheet_stops::namespace(desk, out, n, word(v, 1)),
        kinds::KILL => sheet_stops::kill(desk, out, n),
        _ => sheet_stops::last(desk, out, n, word(v, 1)),
    }
    Ok(())
}

// Lines on one stop.
fn stops(kind: u64, v: &[u64], s: &mut [u64], desk: &mut [u64], out: &mut [u8]) -> Result<(), u64> {
    match kind {
        kinds::SELL => sheet_stops::admit(s, desk, out, 1, v),
        kinds::BUY => sheet_stops::admit(s, desk, out, 0, v),
        kinds::QTY => sheet_stops::change(s, desk, out, v, &[0, 0, 0, word(v, 3)]),
        kinds::PRICE => sheet_stops::change(s, desk, out, v, &[1, 0, word(v, 3), 0]),
        kinds::BOTH => sheet_stops::change(s, desk, out, v, &[2, 0, word(v, 3), word(v, 4)]),
        kinds::REPLACE => {
            sheet_stops::change(s, desk, out, v, &[3, word(v, 3), word(v, 4), word(v, 5)])
        }
        _ => sheet_stops::cancel(s, desk, out, v),
    }
}

// Lines on all stops, or those of a holder.
fn lists(kind: u64, v: &[u64], s: &mut [u64], desk: &mut [u64], out: &mut [u8]) -> Result<(), u64> {
    match kind {
        kinds::CANCEL_HOLDER => sheet_listing::cancel_holder(s, desk, out, v),
        kinds::CLEAR => sheet_stops::clear(s, desk, out),
        kinds::LIST => sheet_listing::list(&s[..], desk, out),
        kinds::HOLDER => sheet_listing::list_holder(&s[..], desk, out, v),
        _ => sheet_listing::totals(&s[..], desk, out),
    }
}

// Puts so many numbers of a line, from a place on, into a list.
fn put(line: &[u8], from: usize, many: usize, list: &mut [u64], at: usize) {
    if from <= line.len() && many <= MOST_PRICES && at <= MOST_PRICES {
        put_numbers(line, from, many, list, at);
    }
}

// Puts prints behind those of the run, if it has room for all of them.
fn prints(
    line: &[u8],
    v: &[u64],
    run: &mut [u64],
    desk: &mut [u64],
    out: &mut [u8],
) -> Result<(), u64> {
    let at = word(&desk[..], PRINTS);
    let many = word(v, 1);
    let most = MOST_PRICES as u64;
    if many > most || at > most - many {
        return Err(PRICE_COUNT);
    }
    put(line, word(v, 0) as usize, many as usize, run, at as usize);
    set(desk, PRINTS, at + many);
    let number = word(&desk[..], LINE);
    tell(out, desk, names::PRINTS, &[number, many, at + many]);
    Ok(())
}

// One price more than a ladder takes, so that the library refuses too many.
const TRIAL_ROOM: usize = MOST_TRIAL_PRICES + 1;

fn ladder(line: &[u8], v: &[u64], s: &[u64], desk: &mut [u64], out: &mut [u8]) -> Result<(), u64> {
    let mut prices = [0u64; TRIAL_ROOM];
    let many = TRIAL_ROOM.min(word(v, 1) as usize);
    put(line, word(v, 0) as usize, many, &mut prices, 0);
    sheet_listing::ladder(s, desk, out, first(&prices, many))
}

// Lines that take the run or the script.
fn runs(
    kind: u64,
    v: &[u64],
    s: &mut [u64],
    run: &[u64],
    script: &mut [u64],
    desk: &mut [u64],
    out: &mut [u8],
) -> Result<(), u64> {
    let taken = first(run, word(&desk[..], PRINTS) as usize);
    match kind {
        kinds::WALK => sheet_runs::walk(s, desk, out, taken),
        kinds::ENDS => sheet_runs::ends(s, desk, out, taken),
        kinds::COMPARE => sheet_compare::compare(&s[..], desk, out, taken),
        kinds::TURNS => sheet_compare::turns(desk, out, taken),
        kinds::CHILD => {
            sheet_runs::child(script, desk, out, v);
            Ok(())
        }
        kinds::ASK => sheet_asking::ask(&s[..], desk, out, taken),
        kinds::COMMIT => sheet_asking::commit(s, desk, out, taken),
        _ => pass(s, taken, &script[..], desk, out),
    }
}

fn pass(
    s: &mut [u64],
    run: &[u64],
    script: &[u64],
    desk: &mut [u64],
    out: &mut [u8],
) -> Result<(), u64> {
    let entries = word(&desk[..], ENTRIES) as usize;
    let used = first(script, entries.saturating_mul(SCRIPT_ENTRY_WORDS));
    sheet_runs::pass(s, desk, out, used, run)
}

// The command of a line; its kind is none where the line has no words. Answers the number of a refusal.
pub fn run(
    kind: u64,
    line: &[u8],
    v: &[u64],
    s: &mut [u64],
    run: &mut [u64],
    script: &mut [u64],
    desk: &mut [u64],
    out: &mut [u8],
) -> Result<(), u64> {
    match kind {
        0 => Ok(()),
        1..=6 => settings(kind, v, s, desk, out),
        7..=13 => stops(kind, v, s, desk, out),
        14 | 15 | 24 | 25 | 26 => lists(kind, v, s, desk, out),
        kinds::PRINTS => prints(line, v, run, desk, out),
        kinds::LADDER => ladder(line, v, &s[..], desk, out),
        _ => runs(kind, v, s, &run[..], script, desk, out),
    }
}
