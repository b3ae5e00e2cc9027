// The value types that orderbook-rs takes from its crate pricelevel: prices, quantities, sides, identities and holders, at
// 64 bits; the admission sequence, which document 01 makes a kind of number of its own; and two words for what may pass
// 64 bits.
#![tactic(auto)]

ghost use Rattle.std.specs.Prelude.{◌≡◌, ◌+◌, ◌<◌, ◌^◌};
ghost use Rattle.pricelevel.specs.Holder.{same_holder};
ghost use Rattle.pricelevel.specs.Identity.{kind_number, same_id};
ghost use Rattle.pricelevel.specs.Side.{side_number};
ghost use Rattle.pricelevel.specs.Tick.{on_tick};
ghost use Rattle.pricelevel.specs.TwoWords.{number_of};

// A price, in price units.
#[derive(Clone, Copy)]
pub struct Price(pub u64);

// A quantity, in units of the product.
#[derive(Clone, Copy)]
pub struct Quantity(pub u64);

// An admission sequence, the tie-break of every order of stops.
#[derive(Clone, Copy)]
pub struct Seq(pub u64);

// The side of an order.
#[derive(Clone, Copy)]
pub enum Side {
    Buy,
    Sell,
}

impl Side {
    // The number of a side in a stored word: 0 buy, 1 sell.
    pub fn number(self) -> u8
        ensures { result ≡ side_number self }
    {
        match self {
            Side::Buy => 0,
            Side::Sell => 1,
        }
    }
}

// What an identity was made as.
#[derive(Clone, Copy)]
pub enum IdKind {
    Uuid,
    Ulid,
    Sequential,
}

impl IdKind {
    // The number of a kind, in a stored word and in the name of a child order: 0 UUID, 1 ULID, 2 sequential.
    pub fn number(self) -> u8
        ensures { result ≡ kind_number self }
    {
        match self {
            IdKind::Uuid => 0,
            IdKind::Ulid => 1,
            IdKind::Sequential => 2,
        }
    }
}

// An order's identity: its kind, and its sixteen bytes as two big-endian words, the high one first.
#[derive(Clone, Copy)]
pub struct Id {
    pub kind: IdKind,
    pub high: u64,
    pub low: u64,
}

impl Id {
    // Whether two identities are equal: in kind and in both words.
    pub fn eq(self, other: Id) -> bool
        ensures { result ≡ same_id self other }
    {
        let mine = self.kind;
        let theirs = other.kind;
        if mine.number() != theirs.number() {
            return false;
        }
        if self.high != other.high {
            return false;
        }
        self.low == other.low
    }
}

// Who holds a stop: 32 bytes as four big-endian words, the Rust's Hash32.
#[derive(Clone, Copy)]
pub struct Holder(pub u64, pub u64, pub u64, pub u64);

impl Holder {
    // Whether two holders are equal, in all four words.
    pub fn eq(self, other: Holder) -> bool
        ensures { result ≡ same_holder self other }
    {
        if self.0 != other.0 {
            return false;
        }
        if self.1 != other.1 {
            return false;
        }
        if self.2 != other.2 {
            return false;
        }
        self.3 == other.3
    }
}

// A number of up to 128 bits as two words, high * 2^64 + low: where the Rust has a u128 that may pass 64 bits.
#[derive(Clone, Copy)]
pub struct TwoWords {
    pub high: u64,
    pub low: u64,
}

impl TwoWords {
    // The sum of two words, which carries at most 1 into the high one.
    pub fn sum(a: u64, b: u64) -> TwoWords
        ensures result_value { number_of result ≡ a + b }
        ensures low_bound { result.low < 2 ^ 64 }
    {
        let space = u64::MAX - b;
        if a <= space {
            return TwoWords {
                high: 0,
                low: a + b,
            };
        }
        TwoWords {
            high: 1,
            low: a - space - 1,
        }
    }
}

// Whether an amount of price units lies on a tick: is a multiple of it, or the tick is 0, which is none.
pub fn on_tick(tick: u64, amount: u64) -> bool
    ensures { result ≡ on_tick tick amount }
{
    if tick == 0 {
        return true;
    }
    amount % tick == 0
}
