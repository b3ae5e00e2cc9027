// UUIDs of version 5 (RFC 9562).
#![tactic(auto)]

ghost use Rattle.std.specs.Prelude.{◌≡◌, ◌/◌, ◌%◌, ◌^◌, ◌<◌};
ghost use Rattle.fips180.specs.Fips.{octets};
ghost use Rattle.uuid_v5.specs.Rfc9562.{octets_of, uuid_of, stamped, v5};

// The 128 bits of a UUID, the leftmost 64 first.
#[derive(Clone, Copy)]
pub struct Uuid {
    pub high: u64,
    pub low: u64,
}

// The octet of x that has s bits below it.
fn octet(x: u64, s: u64) -> u8
    requires { s < 64 }
    ensures { result ≡ x / 2 ^ s % 256 }
{
    ((x >> s) % 256) as u8
}

// The UUID of a hash value: its first 128 bits, with the version and the variant put in.
fn of_hash(s: fips180::State) -> Uuid
    ensures { result ≡ uuid_of (stamped (octets s)) }
{
    let b = s.b as u64;
    Uuid {
        high: s.a as u64 * 0x1_0000_0000 + (b / 0x1_0000 * 0x1_0000 + (0x5000 + b % 0x1000)),
        low: (0x8000_0000 + s.c as u64 % 0x4000_0000) * 0x1_0000_0000 + s.d as u64,
    }
}

impl Uuid {
    // The UUID of version 5 of a name in a namespace.
    pub fn new_v5(namespace: Uuid, name: &[u8]) -> Uuid
        ensures { result ≡ uuid_of (v5 (octets_of namespace) name.now) }
    {
        let head = namespace.as_bytes();
        of_hash(sha1_hash::hash(&head, name))
    }

    // The 16 octets of a UUID, the most significant first.
    pub fn as_bytes(self) -> [u8; 16]
        ensures { result ≡ octets_of self }
    {
        [
            octet(self.high, 56),
            octet(self.high, 48),
            octet(self.high, 40),
            octet(self.high, 32),
            octet(self.high, 24),
            octet(self.high, 16),
            octet(self.high, 8),
            octet(self.high, 0),
            octet(self.low, 56),
            octet(self.low, 48),
            octet(self.low, 40),
            octet(self.low, 32),
            octet(self.low, 24),
            octet(self.low, 16),
            octet(self.low, 8),
            octet(self.low, 0),
        ]
    }
}
