// The numbers of a line.
ghost use Rattle.std.specs.Prelude.{◌≤◌, length};

// A number with a digit behind it.
fn with_digit(value: u64, c: u8) -> u64 {
    if c < b'0' || value > 1844674407370955161 {
        return value;
    }
    (value * 10).wrapping_add(u64::from(c - b'0'))
}

// Takes a byte of a line into its numbers: a space starts the next. Answers how many there are.
fn with_byte(n: &mut [u64], count: usize, c: u8) -> usize
    requires { count ≤ length n.old }
    ensures { result ≤ length n.old }
{
    if c == b' ' {
        if count == n.len() {
            return count;
        }
        n[count] = 0;
        return count + 1;
    }
    if count > 0 {
        let at = count - 1;
        n[at] = with_digit(n[at], c);
    }
    count
}

// Writes the numbers of a line, each behind a space, and answers how many there are.
pub fn read(text: &[u8], n: &mut [u64]) -> usize
    ensures { result ≤ length n.old }
{
    let mut count = 0;
    for c in text {
        count = with_byte(n, count, *c);
    }
    count
}
