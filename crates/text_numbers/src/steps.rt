// What an argument gives.
ghost use Rattle.std.specs.Prelude.{◌≡◌};
ghost use Rattle.text_numbers.specs.Steps.{bad as Steps·bad, got as Steps·got};

use crate::Step;

// A fault, with its column.
pub fn bad(fault: u64, column: usize, next: usize) -> Step
    ensures { result ≡ Steps·bad fault column next }
{
    Step {
        fault: fault,
        column: column,
        next: next,
        size: 0,
        a: 0,
        b: 0,
        c: 0,
        d: 0,
        e: 0,
    }
}

// So many values, the first of five.
pub fn got(size: u64, a: u64, b: u64, c: u64, d: u64, e: u64, next: usize) -> Step
    ensures { result ≡ Steps·got size a b c d e next }
{
    Step {
        fault: 0,
        column: 0,
        next: next,
        size: size,
        a: a,
        b: b,
        c: c,
        d: d,
        e: e,
    }
}
