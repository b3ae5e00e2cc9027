// A line that lists the turning points of a run.
use session_text::lent::{LENT, MOST_PLACES};
use session_text::printing;
use yubtomiq::yubtomiq_turning_points;

// A word with its place, if a call wrote it.
fn wrote(i: usize, word: u64) {
    if word != LENT {
        printing::text(b" ");
        printing::number(i as u64);
        printing::text(b"=");
        printing::number(word);
    }
}

fn places(list: &[u64]) {
    printing::text(b", turns");
    for (i, word) in list.iter().enumerate() {
        wrote(i, *word);
    }
}

fn turns_of(n: &[u64], list: &mut [u64], answer: &mut [u64; 1]) -> u64 {
    yubtomiq_turning_points(n, list, answer)
}

// A call on the list, and what it wrote there.
fn on_list(n: &[u64], list: &mut [u64]) {
    let mut answer = [LENT; 1];
    let r = turns_of(n, list, &mut answer);
    printing::answer(r, &answer);
    places(&list[..]);
}

// Lends a list of so many places, at most one more than a run can need.
pub fn turns(n: &[u64], many: usize) {
    let mut room = [LENT; MOST_PLACES];
    let list: &mut [u64] = &mut room;
    if many <= list.len() {
        on_list(n, &mut list[0..many]);
    }
}
