// SHA-1's message schedule, from a padded message of one block.
#![tactic(auto)]

ghost use Rattle.std.specs.Prelude.{◌≡◌, ◌+◌, ◌-◌, ◌*◌, ◌/◌, ◌%◌, ◌^◌, ◌≤◌, ◌<◌, ◌++◌, length, get_or};
ghost use Rattle.fips180.specs.Fips.{rotl, block_count, pad, word_at, next_word, schedule};

use sha1_step::rotl;

// Octet j of the length in bits of a message of n octets. The shift drops what is above 64 bits.
fn length_octet(n: usize, j: usize) -> u8
    requires { j < 8 }
    ensures { result ≡ 8 * n / 2 ^ (56 - 8 * j) % 256 }
{
    (((n << 3) >> (56 - 8 * j)) % 256) as u8
}

// Octet i of the padded message.
fn padded(head: &[u8], tail: &[u8], i: usize) -> u8
    requires head_len_bound { length head.now ≤ 65536 }
    requires i_bound { i < 64 * block_count (length head.now + length tail.now) }
    ensures { result ≡ get_or (pad (head.now ++ tail.now)) i 0 }
{
    if i < head.len() {
        return head[i];
    }
    let n = head.len() + tail.len();
    if i < n {
        return tail[i - head.len()];
    }
    if i == n {
        return 0x80;
    }
    let end = 64 * ((n + 8) / 64) + 56;
    if i < end {
        return 0;
    }
    length_octet(n, i - end)
}

// The word of four octets, the highest first.
fn big_endian(a: u8, b: u8, c: u8, d: u8) -> u32
    ensures { result ≡ ((a * 256 + b) * 256 + c) * 256 + d }
{
    ((a as u32 * 256 + b as u32) * 256 + c as u32) * 256 + d as u32
}

// Word j of the padded message.
fn word(head: &[u8], tail: &[u8], j: usize) -> u32
    requires head_len_bound { length head.now ≤ 65536 }
    requires j_bound { j < 16 * block_count (length head.now + length tail.now) }
    ensures { result ≡ word_at (pad (head.now ++ tail.now)) j }
{
    big_endian(
        padded(head, tail, 4 * j),
        padded(head, tail, 4 * j + 1),
        padded(head, tail, 4 * j + 2),
        padded(head, tail, 4 * j + 3),
    )
}

// Word t of the schedule of block i, from the words before it. The one stored last is read last: it is waited for.
fn next_word(head: &[u8], tail: &[u8], i: usize, w: &[u32; 80], t: usize) -> u32
    requires head_len_bound { length head.now ≤ 65536 }
    requires i_bound { (i < block_count (length head.now + length tail.now)) × (t < 80) }
    ensures { result ≡ next_word (pad (head.now ++ tail.now)) i w.now t }
{
    if t < 16 {
        return word(head, tail, 16 * i + t);
    }
    let d = w[t - 16];
    let c = w[t - 14];
    let b = w[t - 8];
    let a = w[t - 3];
    rotl(1, a ^ b ^ c ^ d)
}

// The message schedule of block i.
pub fn schedule(head: &[u8], tail: &[u8], i: usize) -> [u32; 80]
    requires head_len_bound { length head.now ≤ 65536 }
    requires i_bound { i < block_count (length head.now + length tail.now) }
    ensures { result ≡ schedule (pad (head.now ++ tail.now)) i 80 }
{
    let mut w = [0u32; 80];
    for t in 0..80 {
        let x = next_word(head, tail, i, &w, t);
        w[t] = x;
    }
    w
}
