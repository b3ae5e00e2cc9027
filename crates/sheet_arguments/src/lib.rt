// The arguments of a worksheet's commands: one function for each letter of a signature.
#![tactic(auto)]

ghost use Rattle.std.specs.Prelude.{◌≤◌, ◌≡◌, length};
ghost use Rattle.sheet_arguments.specs.Arguments.{argument_at};

use sheet_words::{child_at, either_at, optional_at};
use text_holders::{holder_at, holder_or_none};
use text_identities::{identity_at, uuid_at};
use text_numbers::{Step, count_at, got, number_at};

// The argument that a letter asks for: its values, or its fault, and the place behind it.
#[tactic(auto, unfolding(crate::specs::Arguments::argument_at))]
pub fn argument_at(letter: u8, line: &[u8], at: usize) -> Step
    requires { at ≤ length line.now }
    ensures { (result ≡ argument_at letter line.now at) × (result.next ≤ length line.now) }
{
    match letter {
        b'n' => number_at(line, at),
        b'o' => optional_at(line, at),
        b'i' => identity_at(line, at),
        b'u' => uuid_at(line, at),
        b'b' => either_at(b"on", b"off", 6, line, at),
        b's' => either_at(b"sell", b"buy", 7, line, at),
        b'h' => holder_at(line, at),
        b'H' => holder_or_none(line, at),
        b'p' => count_at(line, at),
        b'c' => child_at(line, at),
        _ => got(0, 0, 0, 0, 0, 0, at),
    }
}
