// Lines that evaluate a store, commit what was asked, collect its stops, try prices on them or list turning points, and
// the lists that they lend: every word of these is the same before a call, so that all that the call wrote is printed,
// and an entry behind the last that it lists as well, should it write there.
#![tactic(auto)]

use crate::entries::entries;
use book::{ELECTED_WORDS, ElectedWords, MOVED_WORDS, MovedWords};
use session_text::lent::{LENT, MOST_ELECTED, MOST_MOVED};
use session_text::names::Name;
use session_text::printing;
use word_groups::{first_words, rest, word};
use yubtomiq::{
    yubtomiq_ask_segment, yubtomiq_evaluate_pending_stops, yubtomiq_run_stop_triggers,
    yubtomiq_segment, yubtomiq_step, yubtomiq_walk,
};

mod collecting;
mod committing;
mod entries;
mod trying;
mod turning;

pub use collecting::collect;
pub use committing::commit;
pub use trying::ladder;
pub use turning::turns;

// Each call by itself, and below it what it answered, printed where its contract is not in sight: the proofs are
// quicker so. Not one function over a closure: the bound of a closure cannot name the size of its array.

fn segment_of(
    s: &mut [u64],
    n: &[u64],
    elected: &mut [ElectedWords],
    moved: &mut [MovedWords],
    answer: &mut [u64; 2],
) -> u64 {
    yubtomiq_segment(
        s,
        &first_words(n),
        &first_words(rest(n, 4)),
        elected,
        moved,
        answer,
    )
}

fn segment(s: &mut [u64], n: &[u64], elected: &mut [ElectedWords], moved: &mut [MovedWords]) {
    let mut answer = [LENT; 2];
    let r = segment_of(s, n, elected, moved, &mut answer);
    printing::answer(r, &answer);
}

fn ask_of(
    s: &[u64],
    n: &[u64],
    elected: &mut [ElectedWords],
    moved: &mut [MovedWords],
    answer: &mut [u64; 2],
) -> u64 {
    yubtomiq_ask_segment(
        s,
        &first_words(n),
        &first_words(rest(n, 4)),
        elected,
        moved,
        answer,
    )
}

fn ask(s: &[u64], n: &[u64], elected: &mut [ElectedWords], moved: &mut [MovedWords]) {
    let mut answer = [LENT; 2];
    let r = ask_of(s, n, elected, moved, &mut answer);
    printing::answer(r, &answer);
}

fn step_of(
    s: &mut [u64],
    n: &[u64],
    elected: &mut [ElectedWords],
    moved: &mut [MovedWords],
    answer: &mut [u64; 2],
) -> u64 {
    yubtomiq_step(
        s,
        &first_words(n),
        word(n, 4),
        &first_words(rest(n, 5)),
        word(n, 7),
        elected,
        moved,
        answer,
    )
}

fn step(s: &mut [u64], n: &[u64], elected: &mut [ElectedWords], moved: &mut [MovedWords]) {
    let mut answer = [LENT; 2];
    let r = step_of(s, n, elected, moved, &mut answer);
    printing::answer(r, &answer);
}

fn walk_of(s: &mut [u64], n: &[u64], elected: &mut [ElectedWords], answer: &mut [u64; 2]) -> u64 {
    yubtomiq_walk(
        s,
        &first_words(n),
        &first_words(rest(n, 4)),
        rest(n, 6),
        elected,
        answer,
    )
}

fn walk(s: &mut [u64], n: &[u64], elected: &mut [ElectedWords]) {
    let mut answer = [LENT; 2];
    let r = walk_of(s, n, elected, &mut answer);
    printing::answer(r, &answer);
}

fn pass_of(s: &mut [u64], n: &[u64], elected: &mut [ElectedWords], answer: &mut [u64; 3]) -> u64 {
    yubtomiq_evaluate_pending_stops(
        s,
        &first_words(n),
        rest(n, 8),
        &first_words(rest(n, 4)),
        elected,
        answer,
    )
}

fn pass(s: &mut [u64], n: &[u64], elected: &mut [ElectedWords]) {
    let mut answer = [LENT; 3];
    let r = pass_of(s, n, elected, &mut answer);
    printing::answer(r, &answer);
}

fn triggers_of(
    s: &mut [u64],
    path: &mut [u64; 4],
    n: &[u64],
    elected: &mut [ElectedWords],
    answer: &mut [u64; 3],
) -> u64 {
    yubtomiq_run_stop_triggers(
        s,
        path,
        &first_words(n),
        rest(n, 6),
        &first_words(rest(n, 4)),
        elected,
        answer,
    )
}

fn triggers(s: &mut [u64], path: &mut [u64; 4], n: &[u64], elected: &mut [ElectedWords]) {
    let mut answer = [LENT; 3];
    let r = triggers_of(s, path, n, elected, &mut answer);
    printing::answer(r, &answer);
    printing::path(path);
}

fn evaluate(
    call: Name,
    s: &mut [u64],
    path: &mut [u64; 4],
    n: &[u64],
    elected: &mut [ElectedWords],
    moved: &mut [MovedWords],
) {
    match call {
        Name::Segment => segment(s, n, elected, moved),
        Name::Walk => walk(s, n, elected),
        Name::Pass => pass(s, n, elected),
        Name::Step => step(s, n, elected, moved),
        Name::Ask => ask(&s[..], n, elected, moved),
        _ => triggers(s, path, n, elected),
    }
}

// A call on both lists, and what it wrote there.
fn on_lists(
    call: Name,
    s: &mut [u64],
    path: &mut [u64; 4],
    n: &[u64],
    elected: &mut [ElectedWords],
    moved: &mut [MovedWords],
) {
    evaluate(call, s, path, n, elected, moved);
    entries(b", elected ", &elected[..]);
    entries(b", moved ", &moved[..]);
}

// Lends lists of so many entries, at most one more than a store can need.
pub fn run(
    call: Name,
    s: &mut [u64],
    path: &mut [u64; 4],
    n: &[u64],
    elected: usize,
    moved: usize,
) {
    let mut fills = [[LENT; ELECTED_WORDS]; MOST_ELECTED];
    let mut moves = [[LENT; MOVED_WORDS]; MOST_MOVED];
    let e: &mut [ElectedWords] = &mut fills;
    let m: &mut [MovedWords] = &mut moves;
    if elected <= e.len() && moved <= m.len() {
        on_lists(call, s, path, n, &mut e[0..elected], &mut m[0..moved]);
    }
}
