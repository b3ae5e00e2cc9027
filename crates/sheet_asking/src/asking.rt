// What the ends of a run would do: asked of the store, which stays, and kept on the desk.
use crate::reading::tell_asked;
use book::{ELECTED_WORDS, ElectedWords, MOST_MOVES, MOST_RECORDS, MOVED_WORDS, MovedWords};
use entry_groups::{put_elected, put_moved};
use sheet_desk::{
    ASKED_ELECTED, ASKED_ELECTS, ASKED_LINE, ASKED_MOVED, ASKED_MOVES, LINE, SETTINGS, TRADE,
    accepted, some_prints, tell_text,
};
use sheet_lines::names;
use word_groups::{four, last, rest, set, word};
use yubtomiq::yubtomiq_ask_segment;

// The prints of a segment over a run's ends, arrived from the last trade.
pub fn prints_of(desk: &[u64], run: &[u64]) -> [u64; 4] {
    [
        word(desk, TRADE),
        word(desk, TRADE + 1),
        word(run, 0),
        last(run),
    ]
}

// How many it would move and elect.
fn ask_of(
    s: &[u64],
    desk: &[u64],
    run: &[u64],
    elected: &mut [ElectedWords],
    moved: &mut [MovedWords],
) -> Result<[u64; 2], u64> {
    let mut answer = [0u64; 2];
    accepted(yubtomiq_ask_segment(
        s,
        &four(rest(desk, SETTINGS)),
        &prints_of(desk, run),
        elected,
        moved,
        &mut answer,
    ))?;
    Ok(answer)
}

// The words of a desk from a place on; none beyond the last.
fn room(desk: &mut [u64], at: usize) -> &mut [u64] {
    let start = at.min(desk.len());
    &mut desk[start..]
}

// Keeps both lists, as long as they can be; those behind the counts are not looked at.
fn keep(desk: &mut [u64], elected: &[ElectedWords], moved: &[MovedWords], counts: &[u64; 2]) {
    let line = word(&desk[..], LINE);
    set(desk, ASKED_LINE, line);
    set(desk, ASKED_MOVES, counts[0]);
    set(desk, ASKED_ELECTS, counts[1]);
    put_elected(room(desk, ASKED_ELECTED), elected);
    put_moved(room(desk, ASKED_MOVED), moved);
}

// Asks, and keeps what is answered.
fn asked(s: &[u64], desk: &mut [u64], run: &[u64]) -> Result<(), u64> {
    let mut elected = [[0u64; ELECTED_WORDS]; MOST_RECORDS];
    let mut moved = [[0u64; MOVED_WORDS]; MOST_MOVES];
    let counts = ask_of(s, &desk[..], run, &mut elected, &mut moved)?;
    keep(desk, &elected, &moved, &counts);
    Ok(())
}

fn tell(desk: &mut [u64], out: &mut [u8], run: &[u64]) {
    let line = word(&desk[..], LINE);
    let values = [
        line,
        run.len() as u64,
        word(run, 0),
        last(run),
        word(&desk[..], ASKED_ELECTS),
        word(&desk[..], ASKED_MOVES),
    ];
    tell_text(out, desk, names::ASK, &values);
    tell_asked(
        desk,
        out,
        names::TABLE_ASKED_MOVED,
        names::TABLE_ASKED_ELECTED,
    );
    tell_text(out, desk, names::ASKED, &[0]);
}

// The run stays as it is.
pub fn ask(s: &[u64], desk: &mut [u64], out: &mut [u8], run: &[u64]) -> Result<(), u64> {
    asked(s, desk, some_prints(run)?)?;
    tell(desk, out, run);
    Ok(())
}
