// The script that stands for the children's matching, and the pass.
use crate::stepping::last_of;
use crate::telling::{next_turn, tell_elected};
use book::{ELECTED_WORDS, ElectedWords, MOST_RECORDS, SCRIPT_ENTRY_WORDS};
use sheet_desk::{
    ENTRIES, LINE, PRINTS, SETTINGS, TRADE, TURN, accepted, filled, some_prints, tell, tell_text,
    traded,
};
use sheet_lines::names;
use sheet_listing::left;
use word_groups::{copy, four, rest, set, word};
use yubtomiq::yubtomiq_evaluate_pending_stops;

// Each elected stop takes one entry, so that no pass uses more.
const MOST_ENTRIES: u64 = MOST_RECORDS as u64;

// Puts the words of an entry, if there is room for so many.
fn put_entry(script: &mut [u64], entries: u64, v: &[u64]) {
    let at = (entries as usize).saturating_mul(SCRIPT_ENTRY_WORDS);
    let Some(behind) = script.get_mut(at..) else {
        return;
    };
    if let Some(entry) = behind.get_mut(..SCRIPT_ENTRY_WORDS) {
        copy(v, entry);
    }
}

fn tell_entry(desk: &mut [u64], out: &mut [u8], entry: u64, v: &[u64]) {
    let line = word(&desk[..], LINE);
    if word(v, 0) == 0 {
        tell(out, desk, names::CHILD_NONE, &[line, entry]);
        return;
    }
    if word(v, 1) == 0 {
        tell(
            out,
            desk,
            names::CHILD,
            &[line, entry, word(v, 3), word(v, 4)],
        );
        return;
    }
    tell(
        out,
        desk,
        names::CHILD_FROM,
        &[line, entry, word(v, 3), word(v, 4), word(v, 2)],
    );
}

// The next entry of the script: what a child prints.
pub fn child(script: &mut [u64], desk: &mut [u64], out: &mut [u8], v: &[u64]) {
    let line = word(&desk[..], LINE);
    let entries = word(&desk[..], ENTRIES);
    if entries >= MOST_ENTRIES {
        tell(out, desk, names::SCRIPT_FULL, &[line, MOST_ENTRIES]);
        return;
    }
    put_entry(script, entries, v);
    set(desk, ENTRIES, entries + 1);
    tell_entry(desk, out, entries + 1, v);
}

fn pass_of(
    s: &mut [u64],
    desk: &[u64],
    script: &[u64],
    run: &[u64],
    elected: &mut [ElectedWords],
) -> Result<[u64; 3], u64> {
    let mut answer = [0u64; 3];
    let prints = [
        word(desk, TRADE),
        word(desk, TRADE + 1),
        word(run, 0),
        last_of(run),
    ];
    accepted(yubtomiq_evaluate_pending_stops(
        s,
        &four(rest(desk, SETTINGS)),
        script,
        &prints,
        elected,
        &mut answer,
    ))?;
    Ok(answer)
}

fn elections(desk: &mut [u64], out: &mut [u8], list: &[ElectedWords]) {
    for e in list {
        let turn = next_turn(desk);
        tell_elected(desk, out, names::PASS_ELECTED, 0, turn, e);
    }
}

// The last price of an entry; the one before it where nothing is printed.
fn printed(entry: &[u64], before: u64) -> u64 {
    if word(entry, 0) == 0 {
        return before;
    }
    word(entry, 4)
}

// The last price that was printed: of the last used entry that has one, else of the run.
fn last_printed(script: &[u64], used: u64, last: u64) -> u64 {
    script
        .chunks(SCRIPT_ENTRY_WORDS)
        .take(used as usize)
        .fold(last, |before, entry| printed(entry, before))
}

fn tell_passed(
    desk: &mut [u64],
    out: &mut [u8],
    run: &[u64],
    elected: &[ElectedWords],
    answer: &[u64; 3],
) {
    let line = word(&desk[..], LINE);
    let entries = word(&desk[..], ENTRIES);
    set(desk, TURN, 0);
    tell_text(
        out,
        desk,
        names::PASS,
        &[line, word(run, 0), last_of(run), entries],
    );
    elections(desk, out, filled(elected, answer[1]));
    tell_text(
        out,
        desk,
        names::PASS_SUM,
        &[answer[1], answer[0], answer[2]],
    );
}

// The run and the script are used up, and the last price that was printed is the last trade.
fn over(desk: &mut [u64], last: u64) {
    traded(desk, last);
    set(desk, PRINTS, 0);
    set(desk, ENTRIES, 0);
}

// A pass over the run's ends, with the script; both are used up.
pub fn pass(
    s: &mut [u64],
    desk: &mut [u64],
    out: &mut [u8],
    script: &[u64],
    run: &[u64],
) -> Result<(), u64> {
    let prints = some_prints(run)?;
    let mut elected = [[0u64; ELECTED_WORDS]; MOST_RECORDS];
    let answer = pass_of(s, &desk[..], script, prints, &mut elected)?;
    tell_passed(desk, out, prints, &elected, &answer);
    left(&s[..], desk, out);
    over(desk, last_printed(script, answer[2], last_of(prints)));
    Ok(())
}
