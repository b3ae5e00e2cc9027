// A line that tries prices on the stops of a store.
use crate::entries::entries;
use book::{LADDER_WORDS, LadderWords};
use session_text::lent::{LENT, MOST_LISTED};
use session_text::printing;
use yubtomiq::yubtomiq_ladder;

fn ladder_of(s: &[u64], n: &[u64], list: &mut [LadderWords], answer: &mut [u64; 1]) -> u64 {
    yubtomiq_ladder(s, n, list, answer)
}

// A call on the list, and what it wrote there.
fn on_list(s: &[u64], n: &[u64], list: &mut [LadderWords]) {
    let mut answer = [LENT; 1];
    let r = ladder_of(s, n, list, &mut answer);
    printing::answer(r, &answer);
    entries(b", ladder ", &list[..]);
}

// Lends a list of so many entries, at most one more than a store can need.
pub fn ladder(s: &[u64], n: &[u64], many: usize) {
    let mut room = [[LENT; LADDER_WORDS]; MOST_LISTED];
    let list: &mut [LadderWords] = &mut room;
    if many <= list.len() {
        on_list(s, n, &mut list[0..many]);
    }
}
