// Words copied from one list to another, and the least of two lengths.
#![tactic(auto)]

ghost use Rattle.std.specs.Prelude.{◌≤◌, min, ◌++◌, ◌≡◌, length, take, drop};

// The smaller of two numbers.
pub fn least(a: usize, b: usize) -> usize
    ensures { result ≡ min a b }
{
    if a < b { a } else { b }
}

// Writes the start of t over a.
pub fn copy(a: &mut [u64], t: &[u64])
    requires { length a.old ≤ length t.now }
    ensures { a.new ≡ take (length a.old) t.now }
{
    for i in 0..a.len() {
        a[i] = t[i];
    }
}

// Writes the start of t over that of a, as many words as both have, and answers how many; the others stay.
pub fn copy_start(a: &mut [u64], t: &[u64]) -> usize
    ensures { (result ≡ min (length a.old) (length t.now))
        × (a.new ≡ take result t.now ++ drop result a.old) }
{
    let many = least(a.len(), t.len());
    copy(&mut a[..many], t);
    many
}
