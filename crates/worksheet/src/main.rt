// The worksheet: reads a sheet from standard input and writes what its lines do to standard output. With the argument
// `table` it writes tab-separated rows, with `picture` an SVG.
#![tactic(auto)]

ghost use Rattle.std.specs.Prelude.{◌≡◌, length};

use sheet_desk::{PICTURE, TABLE, TEXT};
use sheet_lines::names;
use sheets::{MOST_TEXT, not_read, sheet};
use std::env::{Env, FillError};
use text_words::same;

// The first argument, as what is to be written; none where it names nothing.
fn asked(env: &impl Env) -> Option<u64> {
    let mut room = [0u8; 16];
    match env.arg(1, &mut room) {
        Ok(n) => mode_of(room.get(..n)?),
        Err(FillError::NotPresent) => Some(TEXT),
        Err(FillError::TooLong) => None,
    }
}

fn mode_of(word: &[u8]) -> Option<u64> {
    if same(word, b"table") {
        return Some(TABLE);
    }
    if same(word, b"picture") {
        return Some(PICTURE);
    }
    None
}

fn run(text: &[u8], asked: Option<u64>) {
    let Some(mode) = asked else {
        return not_read(names::NO_SUCH_ARGUMENT);
    };
    if text.len() >= MOST_TEXT {
        return not_read(names::TOO_LONG);
    }
    sheet(text, mode);
}

// Room for a sheet, in a function of its own: where `main` makes the array, the check does not end.
fn room() -> [u8; MOST_TEXT]
    ensures { 524288 ≡ length result }
{
    [0; MOST_TEXT]
}

fn main(rt: HostRuntime) {
    let mode = asked(&rt);
    let mut text = room();
    let got = io::read_full(0, &mut text);
    run(&text[..got], mode);
}
