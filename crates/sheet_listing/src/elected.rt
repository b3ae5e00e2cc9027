// An elected stop.
use book::{ElectedWords, PENDING_PLACE};
use sheet_desk::{LINE, tell_table, tell_text};
use sheet_lines::names;
use word_groups::word;

fn tell_pending(desk: &mut [u64], out: &mut [u8], pending: u64) {
    if pending != 0 {
        tell_text(out, desk, names::CHILD_PENDING, &[0]);
    }
}

// In a turn, at the print of a number: in a row of text that ends with the trigger price or before it, and in one of a
// table.
pub fn tell_elected(
    desk: &mut [u64],
    out: &mut [u8],
    row: u64,
    table: u64,
    number: u64,
    turn: u64,
    e: &ElectedWords,
) {
    let line = word(&desk[..], LINE);
    let values = [
        turn, e[3], e[0], e[1], e[2], e[5], e[4], e[8], e[9], e[10], e[6], e[11], e[12], e[7],
    ];
    tell_text(out, desk, row, &values);
    tell_pending(desk, out, e[PENDING_PLACE]);
    let cells = [
        line, number, e[7], turn, e[0], e[1], e[2], e[3], e[4], e[5], e[6], e[8], e[9], e[10],
        e[11], e[12],
    ];
    tell_table(out, desk, table, &cells);
}
