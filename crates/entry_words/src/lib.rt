// The words of records that are handed in: an elected stop and a moved one, as a commit compares them.
#![tactic(auto)]

ghost use Rattle.std.specs.Prelude.{List, ◌≡◌, ℕ};
ghost use Rattle.book.specs.Entries.{moved_words};
ghost use Rattle.entry_words.specs.Handed.{pending_word, handed_words};

use book::{ELECTED_WORDS, Elected, ElectedWords, MOVED_WORDS, Moved, MovedWords};
use stop_protection::limit_words;

// The last word of an elected entry, by whether its child is pending and by the number of its child's kind.
fn pending_word(pending: bool, kind: u8) -> u64
    ensures { result ≡ pending_word pending kind }
{
    let twice = 2 * (kind as u64);
    if pending {
        return twice + 1;
    }
    twice
}

// A record that is handed in as N words.
pub trait InWords<const N: usize> {
    ghost handed: { Self → List ℕ };

    fn words(self) -> [u64; N]
        ensures { result ≡ handed self };
}

// An elected entry's, and in the last of them also the kind of its child.
impl InWords<ELECTED_WORDS> for Elected {
    ghost handed = { handed_words };

    fn words(self) -> ElectedWords {
        let id = self.id;
        let kind = id.kind;
        let side = self.side;
        let l = limit_words(self.limit);
        let child = self.child;
        let child_kind = child.kind;
        let pending = pending_word(self.pending, child_kind.number());
        [
            kind.number() as u64,
            id.high,
            id.low,
            side.number() as u64,
            self.stop.0,
            self.quantity.0,
            self.seq.0,
            self.trigger.0,
            l[0],
            l[1],
            l[2],
            child.high,
            child.low,
            pending,
        ]
    }
}

impl InWords<MOVED_WORDS> for Moved {
    ghost handed = { moved_words };

    fn words(self) -> MovedWords {
        let id = self.id;
        let kind = id.kind;
        [kind.number() as u64, id.high, id.low, self.stop.0]
    }
}
