// A text read line by line.
use crate::{kinds, running};
use book::{MOST_PRICES, MOST_RECORDS, SCRIPT_ENTRY_WORDS, STORE_WORDS};
use sheet_commands::read_command;
use sheet_desk::{
    LINE, MODE, PICTURE, RECORDS, STOPPED, WHOLE_DESK_WORDS, end, refused, say, tell, tell_picture,
    tell_table,
};
use sheet_lines::names;
use text_holders::holder_at;
use text_lines::next_line;
use text_words::next_word;
use word_groups::{set, word};
use yubtomiq::yubtomiq_layout_store;

// The most bytes of a sheet, and one more, which tells that there are too many.
pub const MOST_TEXT: usize = 0x8_0000;

const SCRIPT_WORDS: usize = SCRIPT_ENTRY_WORDS * MOST_RECORDS;

// The most values of a command.
const VALUES: usize = 16;

// The most bytes of a word that are shown, as the words of a holder.
const SHOWN: usize = 32;

// The word at a column, counted from 1, as the words of a holder: its first bytes.
fn word_at(line: &[u8], column: usize) -> [u64; 4] {
    if column == 0 || column - 1 > line.len() {
        return [0; 4];
    }
    let w = next_word(line, column - 1);
    let word = &line[w.start..w.end];
    let shown = word.get(..SHOWN).unwrap_or(word);
    let h = holder_at(shown, 0);
    [h.a, h.b, h.c, h.d]
}

// The row of a fault's sentence.
fn fault_row(fault: u64) -> u64 {
    if fault > names::MOST_FAULTS {
        return names::FAULTS;
    }
    names::FAULTS + fault
}

// Says where a line could not be read, with the word that is there; and ends the sheet.
fn unread(line: &[u8], fault: u64, column: usize, desk: &mut [u64], out: &mut [u8]) {
    let number = word(&desk[..], LINE);
    let w = word_at(line, column);
    tell(
        out,
        desk,
        fault_row(fault),
        &[number, column as u64, w[0], w[1], w[2], w[3]],
    );
    tell_picture(out, desk, names::PICTURE_FAULT, &[number, column as u64]);
    set(desk, STOPPED, 1);
}

// One line: read, and run.
fn line(
    text: &[u8],
    s: &mut [u64],
    run: &mut [u64],
    script: &mut [u64],
    desk: &mut [u64],
    out: &mut [u8],
) {
    let number = word(&desk[..], LINE);
    set(desk, LINE, number.wrapping_add(1));
    let mut values = [0u64; VALUES];
    let r = read_command(text, &mut values);
    if r.fault != 0 {
        unread(text, r.fault, r.column, desk, out);
        return;
    }
    if let Err(number) = running::run(r.kind, text, &values, s, run, script, desk, out) {
        refused(out, desk, number);
    }
}

// The lines of a text, up to the first that cannot be read.
fn lines(
    text: &[u8],
    s: &mut [u64],
    run: &mut [u64],
    script: &mut [u64],
    desk: &mut [u64],
    out: &mut [u8],
) {
    let mut at: usize = 0;
    // By place: the next line begins where `next_line` says.
    while at < text.len() {
        let cut = next_line(text, at);
        line(&text[at..cut.end], s, run, script, desk, out);
        if word(&desk[..], STOPPED) != 0 {
            return;
        }
        at = cut.next;
    }
}

// Whether a line is a walk.
fn is_walk(text: &[u8]) -> bool {
    let mut values = [0u64; VALUES];
    let r = read_command(text, &mut values);
    r.fault == 0 && r.kind == kinds::WALK
}

// How many panels a picture has: one for each walk.
fn panels(text: &[u8]) -> u64 {
    let mut many: u64 = 0;
    let mut at: usize = 0;
    // By place: the next line begins where `next_line` says.
    while at < text.len() {
        let cut = next_line(text, at);
        if is_walk(&text[at..cut.end]) {
            many += 1;
        }
        at = cut.next;
    }
    many
}

fn layout_of(s: &mut [u64], n: u64) -> u64 {
    yubtomiq_layout_store(s, n, 0)
}

// What stands before the first line: an empty store of the most records; the head of a table or a picture.
fn begin(text: &[u8], mode: u64, s: &mut [u64], desk: &mut [u64], out: &mut [u8]) {
    let most = MOST_RECORDS as u64;
    layout_of(s, most);
    set(desk, RECORDS, most);
    set(desk, MODE, mode);
    tell_table(out, desk, names::TABLE_HEAD, &[0]);
    if mode == PICTURE {
        sheet_pictures::head(desk, out, panels(text));
    }
}

fn end_picture(desk: &mut [u64], out: &mut [u8]) {
    if word(&desk[..], MODE) == PICTURE {
        sheet_pictures::tail(desk, out);
    }
}

// The last line: whether the sheet was read to its end.
fn tell_end(desk: &mut [u64], out: &mut [u8]) {
    let number = word(&desk[..], LINE);
    if word(&desk[..], STOPPED) != 0 {
        tell(out, desk, names::STOPPED, &[number]);
        tell_picture(out, desk, names::PICTURE_STOPPED, &[number]);
        return;
    }
    tell(out, desk, names::DONE, &[0]);
    tell_picture(out, desk, names::PICTURE_DONE, &[0]);
}

fn finish(desk: &mut [u64], out: &mut [u8]) {
    end_picture(desk, out);
    tell_end(desk, out);
}

// A text without the byte-order mark that some spreadsheets put before it.
fn unmarked(text: &[u8]) -> &[u8] {
    match text {
        [0xef, 0xbb, 0xbf, rest @ ..] => rest,
        _ => text,
    }
}

// A whole sheet.
pub fn sheet(all: &[u8], mode: u64) {
    let text = unmarked(all);
    let mut out = io::large_buffer();
    let mut s = [0u64; STORE_WORDS];
    let mut run = [0u64; MOST_PRICES];
    let mut script = [0u64; SCRIPT_WORDS];
    let mut desk = [0u64; WHOLE_DESK_WORDS];
    begin(text, mode, &mut s, &mut desk, &mut out);
    lines(text, &mut s, &mut run, &mut script, &mut desk, &mut out);
    finish(&mut desk, &mut out);
    end(&out, &desk);
}

// A sheet that is not read at all, with the reason.
pub fn not_read(row: u64) {
    let mut out = io::large_buffer();
    let mut desk = [0u64; WHOLE_DESK_WORDS];
    say(&mut out, &mut desk, row, &[MOST_TEXT as u64 - 1]);
    say(&mut out, &mut desk, names::STOPPED, &[0]);
    end(&out, &desk);
}
