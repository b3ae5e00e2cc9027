// The records that the words of a list's entries stand for, read from their words: an elected stop and a moved one.
#![tactic(auto)]

ghost use Rattle.std.specs.Prelude.{List, ◌<◌, [], ◌≡◌, length, get_or, ℕ};
ghost use Rattle.entry_records.specs.Records.{limit_from, elected_of, moved_of};

use book::{ELECTED_WORDS, Elected, ElectedWords, MOVED_WORDS, Moved, MovedWords, PENDING_PLACE};
use pricelevel::{Id, IdKind, Price, Quantity, Seq, TwoWords};
use stop_protection::LimitPrice;
use stored_stops::{kind_of, side_from};

// A limit, by whether there is one and its price's words.
pub fn limit_from(present: u64, high: u64, low: u64) -> Option<LimitPrice>
    ensures { result ≡ limit_from present high low }
{
    let price = LimitPrice(TwoWords {
        high: high,
        low: low,
    });
    match present {
        0 => None,
        _ => Some(price),
    }
}

// A record of a list whose entry has N words.
pub trait Recorded<const N: usize> {
    ghost of_words: { List ℕ → Self };

    // The record whose words lie at a place.
    fn at(words: &[[u64; N]], at: usize) -> Self
        requires { at < length words.now }
        ensures { result ≡ of_words (get_or words.now at []) };
}

impl Recorded<ELECTED_WORDS> for Elected {
    ghost of_words = { elected_of };

    fn at(words: &[ElectedWords], at: usize) -> Elected {
        let e = words[at];
        Elected {
            id: Id {
                kind: kind_of(e[0]),
                high: e[1],
                low: e[2],
            },
            side: side_from(e[3]),
            stop: Price(e[4]),
            quantity: Quantity(e[5]),
            seq: Seq(e[6]),
            trigger: Price(e[7]),
            limit: limit_from(e[8], e[9], e[10]),
            child: Id {
                kind: IdKind::Uuid,
                high: e[11],
                low: e[12],
            },
            pending: 0 < e[PENDING_PLACE],
        }
    }
}

impl Recorded<MOVED_WORDS> for Moved {
    ghost of_words = { moved_of };

    fn at(words: &[MovedWords], at: usize) -> Moved {
        let m = words[at];
        Moved {
            id: Id {
                kind: kind_of(m[0]),
                high: m[1],
                low: m[2],
            },
            stop: Price(m[3]),
        }
    }
}
