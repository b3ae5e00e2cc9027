// The arguments of a command by its signature, their values put into a lent list.
#![tactic(auto)]

ghost use Rattle.std.specs.Prelude.{◌+◌, ◌^◌, ◌≤◌, ◌<◌, ◌≡◌, length};
ghost use Rattle.std.proofs.lemmas.List.Edits.{sets};
ghost use Rattle.text_numbers.specs.Steps.{values_of};
ghost use Rattle.sheet_signatures.specs.Signatures.{arguments_from, ended as Signatures·ended};

use sheet_arguments::argument_at;
use text_numbers::{Step, put_number};
use text_words::next_word;

// The fault of a line and its column; 0 and 0 where there is none.
// Two numbers and no Option: the clauses of `read_arguments` name them, and a command tells them on as numbers (`Told`).
#[derive(Clone, Copy)]
pub struct Taken {
    pub fault: u64,
    pub column: usize,
}

// Puts the values of an argument into a list, as far as it goes; gives the place behind them.
fn put_values(values: &mut [u64], at: usize, s: Step) -> usize
    requires { at + 5 < 2 ^ 64 }
    ensures values_after { values.new ≡ sets values.old at (values_of s) }
    ensures value { (result ≡ at + length (values_of s)) × (result ≤ at + 5) }
{
    if s.size == 0 {
        return at;
    }
    put_number(values, at, s.a);
    if s.size == 1 {
        return at + 1;
    }
    put_number(values, at + 1, s.b);
    if s.size == 2 {
        return at + 2;
    }
    put_number(values, at + 2, s.c);
    if s.size == 3 {
        return at + 3;
    }
    put_number(values, at + 3, s.d);
    if s.size == 4 {
        return at + 4;
    }
    put_number(values, at + 4, s.e);
    at + 5
}

// A word behind the last argument is a fault.
#[tactic(auto, unfolding(crate::specs::Signatures::ended))]
fn ended(line: &[u8], at: usize) -> Taken
    requires { at ≤ length line.now }
    ensures { (result.fault ≡ (Signatures·ended line.now at).fault) × (result.column ≡ (Signatures·ended line.now at).column) }
{
    let w = next_word(line, at);
    if w.start == w.end {
        return Taken {
            fault: 0,
            column: 0,
        };
    }
    Taken {
        fault: 9,
        column: w.start + 1,
    }
}

// The arguments of a line from a place on; the values up to a fault, if there is one, are put into the list.
pub fn read_arguments(signature: &[u8], line: &[u8], at: usize, values: &mut [u64]) -> Taken
    requires { (at ≤ length line.now) × (length signature.now ≤ 4096) }
    ensures fault_value { result.fault ≡ (arguments_from signature.now line.now at).fault }
    ensures column_value { result.column ≡ (arguments_from signature.now line.now at).column }
    ensures values_after { values.new ≡ sets values.old 0 (arguments_from signature.now line.now at).values }
{
    let mut place = at;
    let mut next: usize = 0;
    for letter in signature {
        let s = argument_at(*letter, line, place);
        if s.fault != 0 {
            return Taken {
                fault: s.fault,
                column: s.column,
            };
        }
        next = put_values(values, next, s);
        place = s.next;
    }
    ended(line, place)
}
