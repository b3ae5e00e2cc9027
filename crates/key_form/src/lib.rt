// Whether the pending stops of a store differ in identity and in sequence: by buckets of their keys, in a time that the
// number of stops bounds and not its square, unless keys are made to collide.
#![tactic(auto)]

ghost use Rattle.std.specs.Prelude.{◌≡◌, ◌+◌, ◌-◌, ◌<◌};
ghost use Rattle.pricelevel.specs.Identity.{kind_number};
ghost use Rattle.book.specs.Words.{kind_of, slots_at, all_differ};
ghost use Rattle.chains.specs.Records.{Room, Record};
ghost use Rattle.form_check.specs.Keys.{buckets, bucket_at, same_key, Stop, in_bucket, last_of, Bucketed, new_at, keys_differ};

use book::MOST_RECORDS;
use form_check::Key;
use records::word;
use std::num::wrapping_add_u64;

// How many buckets keys fall into: a prime, so that keys in even steps are spread.
const BUCKETS: u64 = 1021;

// The number of the kind that a stored word stands for.
fn kind_number(word: u64) -> u64
    ensures { result ≡ kind_number (kind_of word) }
{
    if word > 2 {
        return 2;
    }
    word
}

// The bucket of the key of record i.
fn bucket_of(s: &[u64], n: u64, key: Key, i: u64) -> usize
    requires { Record n s.now i }
    ensures value { result ≡ bucket_at key s.now i }
    ensures upper_bound { result < buckets }
{
    match key {
        Key::Sequence => (word(s, n, i, 8) % BUCKETS) as usize,
        Key::Identity => {
            let sum = wrapping_add_u64(word(s, n, i, 1), word(s, n, i, 2));
            (sum % BUCKETS) as usize
        }
    }
}

// Whether the stops in records i and j have the same key.
fn same_key(s: &[u64], n: u64, key: Key, i: u64, j: u64) -> bool
    requires { Record n s.now i × Record n s.now j }
    ensures { result ≡ same_key key s.now i j }
{
    let Key::Identity = key else {
        return word(s, n, i, 8) == word(s, n, j, 8);
    };
    if word(s, n, i, 2) != word(s, n, j, 2) {
        return false;
    }
    if word(s, n, i, 1) != word(s, n, j, 1) {
        return false;
    }
    kind_number(word(s, n, i, 0)) == kind_number(word(s, n, j, 0))
}

// Whether no stop before record i has its key. Record p is the last before it in the bucket of its key, and nexts leads
// from a stop to the one before it in its bucket.
fn is_new(s: &[u64], n: u64, key: Key, i: u64, p: u64, nexts: &[u64; MOST_RECORDS + 1]) -> bool
    requires fact { Record n s.now i × Stop s.now i }
    requires p_value { p ≡ last_of (in_bucket key s.now (bucket_at key s.now i)) (i - 1) }
    requires bucketed { Bucketed key s.now (i - 1) nexts.now }
    ensures { result ≡ new_at key s.now i }
{
    let mut j = p;
    while j > 0 {
        if same_key(s, n, key, j, i) {
            return false;
        }
        j = nexts[j as usize];
    }
    true
}

// Whether no two stops of n records have the same key. A stop is compared with those before it in the bucket of its
// key: with few, unless keys were chosen to fall into one bucket; at worst with all, n * (n - 1) / 2 pairs.
fn keys_differ(s: &[u64], n: u64, key: Key) -> bool
    requires { Room n s.now }
    ensures { result ≡ keys_differ key s.now n }
{
    let mut heads = [0u64; BUCKETS as usize];
    let mut nexts = [0u64; MOST_RECORDS + 1];
    for i in 1..n + 1 {
        if word(s, n, i, 7) != 0 {
            let h = bucket_of(s, n, key, i);
            let p = heads[h];
            if !is_new(s, n, key, i, p, &nexts) {
                return false;
            }
            nexts[i as usize] = p;
            heads[h] = i;
        }
    }
    true
}

// Whether no two of n records are stops of one sequence or one identity.
pub fn all_differ(s: &[u64], n: u64) -> bool
    requires { Room n s.now }
    ensures { result ≡ all_differ (slots_at s.now 1 n) }
{
    if !keys_differ(s, n, Key::Sequence) {
        return false;
    }
    keys_differ(s, n, Key::Identity)
}
