// A run of numbers to the end of a line: counted and checked once, and put into a list once.
ghost use Rattle.std.specs.Prelude.{◌+◌, ◌^◌, ◌≤◌, ◌<◌, ◌≡◌, length, set};
ghost use Rattle.std.proofs.lemmas.List.Edits.{sets};
ghost use Rattle.text_numbers.specs.Numbers.{count_at, numbers_at};

use crate::Step;
use crate::numbers::number_at;
use crate::steps::got;

// How many numbers there are up to the end of the line: one at least, and no other word.
pub fn count_at(line: &[u8], from: usize) -> Step
    requires { from ≤ length line.now }
    ensures { (result ≡ count_at line.now from) × (result.next ≤ length line.now) }
{
    let mut at = from;
    for n in 0..line.len() + 1 {
        let s = number_at(line, at);
        if s.fault != 0 {
            if s.fault != 1 {
                return s;
            }
            if n == 0 {
                return s;
            }
            return got(2, from as u64, n as u64, 0, 0, 0, s.next);
        }
        at = s.next;
    }
    got(2, from as u64, line.len() as u64 + 1, 0, 0, 0, at)
}

// Puts a number at a place of a list, if the list has it.
pub fn put_number(list: &mut [u64], at: usize, n: u64)
    ensures { list.new ≡ set list.old at n }
{
    if at < list.len() {
        list[at] = n;
    }
}

// Puts the numbers of so many words, from a place of the line on, into a list, as far as it goes.
pub fn put_numbers(line: &[u8], from: usize, count: usize, list: &mut [u64], at: usize)
    requires { (from ≤ length line.now) × (at + count < 2 ^ 64) }
    ensures { list.new ≡ sets list.old at (numbers_at count line.now from) }
{
    let mut place = from;
    for i in at..at + count {
        let n = number_at(line, place);
        put_number(list, i, n.a);
        place = n.next;
    }
}
