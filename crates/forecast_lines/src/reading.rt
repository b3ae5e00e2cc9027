// Input read to its end.
ghost use Rattle.std.specs.Prelude.{◌+◌, ◌≤◌, ◌^◌};

// Reads on and answers how many bytes came, none at the end of input.
fn skip(fd: i32) -> usize
    ensures { result ≤ 65536 }
{
    let mut buffer = io::large_buffer();
    io::read_full(fd, &mut buffer)
}

// How many bytes are left to the end of input. Each turn reads one at least, and the count ends at 2^62, which no
// input reaches: no index, so no range.
pub fn left(fd: i32) -> usize
    ensures { result ≤ 2 ^ 62 + 65536 }
{
    let mut total: usize = 0;
    while total < 0x4000_0000_0000_0000 {
        let n = skip(fd);
        if n == 0 {
            return total;
        }
        total += n;
    }
    total
}
