// Stored sheets, one after the other on standard input: a line `=== MODE NAME` begins a sheet, which is run as the
// worksheet would run it, as text, a table or a picture; what stands before the first such line is not run.
#![tactic(auto)]

ghost use Rattle.std.specs.Prelude.{◌≡◌, length};

use sheet_desk::{PICTURE, TABLE, TEXT};
use sheets::{MOST_TEXT, sheet};
use text_lines::next_line;
use text_words::{next_word, same};

fn mode_of(word: &[u8]) -> u64 {
    if same(word, b"table") {
        return TABLE;
    }
    if same(word, b"picture") {
        return PICTURE;
    }
    TEXT
}

// Whether a line begins a sheet.
fn begins(line: &[u8]) -> bool {
    let w = next_word(line, 0);
    same(&line[w.start..w.end], b"===")
}

// The mode that it names.
fn mode_named(line: &[u8]) -> u64 {
    let first = next_word(line, 0);
    let w = next_word(line, first.end);
    mode_of(&line[w.start..w.end])
}

// A sheet that has begun: its mode, and where its text begins.
#[derive(Clone, Copy)]
struct Begun {
    mode: u64,
    from: usize,
}

// Runs a sheet, if one has begun, up to a place.
fn run(text: &[u8], begun: Option<Begun>, to: usize) {
    if let Some(b) = begun {
        if b.from <= to && to <= text.len() {
            sheet(&text[b.from..to], b.mode);
        }
    }
}

fn cases(text: &[u8]) {
    let mut begun: Option<Begun> = None;
    let mut at: usize = 0;
    // By place: the next line begins where `next_line` says.
    while at < text.len() {
        let cut = next_line(text, at);
        let line = &text[at..cut.end];
        if begins(line) {
            run(text, begun, at);
            io::write_all(1, line);
            io::write_all(1, b"\n");
            begun = Some(Begun {
                mode: mode_named(line),
                from: cut.next,
            });
        }
        at = cut.next;
    }
    run(text, begun, at);
}

// Room for a sheet, in a function of its own: where `main` makes the array, the check does not end.
fn room() -> [u8; MOST_TEXT]
    ensures { 524288 ≡ length result }
{
    [0; MOST_TEXT]
}

fn main() {
    let mut text = room();
    let got = io::read_full(0, &mut text);
    cases(&text[..got]);
}
