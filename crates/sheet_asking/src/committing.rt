// What was asked, read back and committed: with the run, the settings and the last trade of this moment.
use crate::asking::prints_of;
use crate::reading::tell_asked;
use book::{ELECTED_WORDS, ElectedWords, MOST_MOVES, MOST_RECORDS, MOVED_WORDS, MovedWords};
use entry_groups::{read_elected, read_moved};
use sheet_desk::{
    ASKED_ELECTED, ASKED_ELECTS, ASKED_LINE, ASKED_MOVED, ASKED_MOVES, LINE, MODE, PRINTS,
    SETTINGS, TABLE, accepted, filled, some_prints, tell, tell_text, traded,
};
use sheet_lines::names;
use sheet_listing::left;
use word_groups::{four, last, rest, set, word};
use yubtomiq::yubtomiq_commit_segment;

fn commit_of(
    s: &mut [u64],
    desk: &[u64],
    run: &[u64],
    elected: &[ElectedWords],
    moved: &[MovedWords],
) -> Result<(), u64> {
    let mut counts = [0u64; 2];
    accepted(yubtomiq_commit_segment(
        s,
        &four(rest(desk, SETTINGS)),
        &prints_of(desk, run),
        elected,
        moved,
        &mut counts,
    ))
}

// Commits with the lists that are kept.
fn committed(s: &mut [u64], desk: &[u64], run: &[u64]) -> Result<(), u64> {
    let mut elected = [[0u64; ELECTED_WORDS]; MOST_RECORDS];
    let mut moved = [[0u64; MOVED_WORDS]; MOST_MOVES];
    read_elected(&mut elected, rest(desk, ASKED_ELECTED));
    read_moved(&mut moved, rest(desk, ASKED_MOVED));
    let e = filled(&elected, word(desk, ASKED_ELECTS));
    let m = filled(&moved, word(desk, ASKED_MOVES));
    commit_of(s, desk, run, e, m)
}

fn read_back(desk: &mut [u64], out: &mut [u8]) {
    let values = [
        word(&desk[..], LINE),
        word(&desk[..], ASKED_LINE),
        word(&desk[..], ASKED_ELECTS),
        word(&desk[..], ASKED_MOVES),
    ];
    tell_text(out, desk, names::COMMIT, &values);
    tell_asked(
        desk,
        out,
        names::TABLE_ASKED_MOVED,
        names::TABLE_ASKED_ELECTED,
    );
}

// What was done: in a table each move and each election once more, as these.
fn tell_done(desk: &mut [u64], out: &mut [u8]) {
    let counts = [word(&desk[..], ASKED_ELECTS), word(&desk[..], ASKED_MOVES)];
    if word(&desk[..], MODE) == TABLE {
        tell_asked(
            desk,
            out,
            names::TABLE_COMMITTED_MOVED,
            names::TABLE_ELECTED,
        );
        return;
    }
    tell_text(out, desk, names::COMMITTED, &counts);
}

// Nothing is asked any more; the run is used up, and its last print is the last trade.
fn over(desk: &mut [u64], price: u64) {
    set(desk, ASKED_LINE, 0);
    set(desk, PRINTS, 0);
    traded(desk, price);
}

fn commit_asked(s: &mut [u64], desk: &mut [u64], out: &mut [u8], run: &[u64]) -> Result<(), u64> {
    read_back(desk, out);
    committed(s, &desk[..], run)?;
    tell_done(desk, out);
    left(&s[..], desk, out);
    over(desk, last(run));
    Ok(())
}

pub fn commit(s: &mut [u64], desk: &mut [u64], out: &mut [u8], run: &[u64]) -> Result<(), u64> {
    let prints = some_prints(run)?;
    if word(&desk[..], ASKED_LINE) == 0 {
        let line = word(&desk[..], LINE);
        tell(out, desk, names::NOT_ASKED, &[line]);
        return Ok(());
    }
    commit_asked(s, desk, out, prints)
}
