// What was asked, read from the desk and told, with the rows of a table for a move and an election.
use book::{MOST_MOVES, MOST_RECORDS, MovedWords};
use entry_groups::{elected_at, moved_at};
use sheet_desk::{
    ASKED_ELECTED, ASKED_ELECTS, ASKED_MOVED, ASKED_MOVES, LINE, tell_table, tell_text,
};
use sheet_lines::names;
use sheet_listing::tell_elected;
use word_groups::{rest, word};

fn tell_move(desk: &mut [u64], out: &mut [u8], table: u64, m: &MovedWords) {
    let line = word(&desk[..], LINE);
    tell_text(out, desk, names::ASKED_MOVED, m);
    tell_table(out, desk, table, &[line, m[0], m[1], m[2], m[3]]);
}

fn tell_moves(desk: &mut [u64], out: &mut [u8], table: u64) {
    let many = word(&desk[..], ASKED_MOVES) as usize;
    for i in 0..many.min(MOST_MOVES) {
        let m = moved_at(rest(&desk[..], ASKED_MOVED), i);
        tell_move(desk, out, table, &m);
    }
}

fn tell_elections(desk: &mut [u64], out: &mut [u8], table: u64) {
    let many = word(&desk[..], ASKED_ELECTS) as usize;
    for i in 0..many.min(MOST_RECORDS) {
        let e = elected_at(rest(&desk[..], ASKED_ELECTED), i);
        tell_elected(desk, out, names::ASKED_ELECTED, table, 0, i as u64 + 1, &e);
    }
}

pub fn tell_asked(desk: &mut [u64], out: &mut [u8], moved: u64, elected: u64) {
    tell_moves(desk, out, moved);
    tell_elections(desk, out, elected);
}
