// The program `forecast` as a function: an input read to its end, and its forecast written to standard output.
#![tactic(auto)]

mod print;
mod reading;

ghost use Rattle.std.specs.Prelude.{◌≡◌, length};
ghost use Rattle.forecast_input.specs.Input.{room_bytes};

use book::{ELECTED_WORDS, MOST_RECORDS};
use forecast_input::{ROOM_BYTES, decisive};
use forecasting::forecast;

// Writes the forecast of an input to standard output.
fn print_forecast(bytes: &[u8]) {
    let mut elected = [[0u64; ELECTED_WORDS]; MOST_RECORDS];
    let answer = forecast(bytes, &mut elected);
    match answer {
        Ok(counts) => print::entries(&elected, counts.elected),
        Err(refusal) => print::refusal(refusal),
    }
}

fn room() -> [u8; ROOM_BYTES]
    ensures { room_bytes ≡ length result }
{
    [0; ROOM_BYTES]
}

// Writes the forecast of all that a file or standard input has.
pub fn forecast_of(fd: i32) {
    let mut bytes = room();
    let got = io::read_full(fd, &mut bytes);
    let n = decisive(got, reading::left(fd));
    print_forecast(&bytes[..n]);
}
