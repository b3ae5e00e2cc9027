// A run walked, and by its ends, side by side.
use book::{
    ELECTED_WORDS, ElectedWords, MOST_MOVES, MOST_RECORDS, MOVED_WORDS, MovedWords, PENDING_PLACE,
    STORE_WORDS,
};
use sheet_desk::{LINE, SETTINGS, TRADE, accepted, filled, tell};
use sheet_lines::names;
use word_groups::{copy, four, rest, two, word};
use yubtomiq::yubtomiq_evaluate_both_ways;

// What the walk elects, and what the ends do.
fn both_of<'a>(
    walked: &mut [u64],
    by_ends: &mut [u64],
    desk: &[u64],
    run: &[u64],
    listed: &'a mut [ElectedWords],
    elected: &'a mut [ElectedWords],
) -> Result<(&'a [ElectedWords], &'a [ElectedWords]), u64> {
    let mut moved = [[0u64; MOVED_WORDS]; MOST_MOVES];
    let mut answer = [0u64; 6];
    yubtomiq_evaluate_both_ways(
        by_ends,
        walked,
        &four(rest(desk, SETTINGS)),
        &two(rest(desk, TRADE)),
        run,
        elected,
        &mut moved,
        listed,
        &mut answer,
    );
    accepted(answer[3])?;
    Ok((filled(listed, answer[5]), filled(elected, answer[2])))
}

// The word of an entry that is its trigger price.
const TRIGGER_PLACE: usize = 7;

// Whether two entries are alike in all that is printed of them: the trigger price and the flag of a pending child, the
// last word, are not.
fn is_alike(a: &ElectedWords, b: &ElectedWords) -> bool {
    a[..TRIGGER_PLACE] == b[..TRIGGER_PLACE]
        && a[TRIGGER_PLACE + 1..PENDING_PLACE] == b[TRIGGER_PLACE + 1..PENDING_PLACE]
}

fn tell_turn(desk: &mut [u64], out: &mut [u8], row: u64, turn: u64, e: &ElectedWords) {
    let values = [
        turn, e[3], e[0], e[1], e[2], e[5], e[4], e[8], e[9], e[10], e[6],
    ];
    tell(out, desk, row, &values);
}

// A turn that both have: in one line where they are alike.
fn shared_turn(desk: &mut [u64], out: &mut [u8], number: u64, w: &ElectedWords, e: &ElectedWords) {
    if is_alike(w, e) {
        tell_turn(desk, out, names::BOTH_ALIKE, number, w);
        return;
    }
    tell_turn(desk, out, names::WALK_ONLY, number, w);
    tell_turn(desk, out, names::ENDS_ONLY, number, e);
}

// The elections turn by turn: a turn that one of them has, or both.
fn turns(desk: &mut [u64], out: &mut [u8], walk: &[ElectedWords], ends: &[ElectedWords]) {
    for i in 0..walk.len().max(ends.len()) {
        let number = i as u64 + 1;
        match (walk.get(i), ends.get(i)) {
            (Some(w), Some(e)) => shared_turn(desk, out, number, w, e),
            (Some(w), None) => tell_turn(desk, out, names::WALK_ONLY, number, w),
            (None, Some(e)) => tell_turn(desk, out, names::ENDS_ONLY, number, e),
            (None, None) => {}
        }
    }
}

// Whether an entry's stop, by its identity, is in a list.
fn is_listed(e: &ElectedWords, list: &[ElectedWords]) -> bool {
    list.iter().any(|other| e[..3] == other[..3])
}

// How many of the walk's elections the ends miss.
fn missed(walk: &[ElectedWords], ends: &[ElectedWords]) -> usize {
    walk.iter().filter(|e| !is_listed(e, ends)).count()
}

// Says of each that the ends miss it.
fn tell_missed(desk: &mut [u64], out: &mut [u8], walk: &[ElectedWords], ends: &[ElectedWords]) {
    for e in walk {
        if !is_listed(e, ends) {
            tell(
                out,
                desk,
                names::MISSED,
                &[e[3], e[0], e[1], e[2], e[5], e[4], e[8], e[9], e[10], e[6]],
            );
        }
    }
}

fn stores_row(equal: bool) -> u64 {
    if equal {
        return names::STORES_EQUAL;
    }
    names::STORES_DIFFER
}

// What a turning run's ends miss, and whether the stores differ.
fn verdict_turning(
    desk: &mut [u64],
    out: &mut [u8],
    walk: &[ElectedWords],
    ends: &[ElectedWords],
    equal: bool,
) {
    let many = missed(walk, ends) as u64;
    tell(out, desk, names::RUN_TURNS, &[many, walk.len() as u64]);
    tell_missed(desk, out, walk, ends);
    tell(out, desk, stores_row(equal), &[0]);
}

fn verdict(
    desk: &mut [u64],
    out: &mut [u8],
    run: &[u64],
    walk: &[ElectedWords],
    ends: &[ElectedWords],
    equal: bool,
) {
    if run.is_sorted_by(|before, price| before >= price) {
        tell(out, desk, names::NEVER_RISES, &[0]);
        return;
    }
    if run.is_sorted() {
        tell(out, desk, names::NEVER_FALLS, &[0]);
        return;
    }
    verdict_turning(desk, out, walk, ends, equal);
}

// Both ways, turn by turn, and what is to be said of them.
fn tell_both(
    desk: &mut [u64],
    out: &mut [u8],
    run: &[u64],
    walk: &[ElectedWords],
    ends: &[ElectedWords],
    equal: bool,
) {
    let line = word(&desk[..], LINE);
    tell(
        out,
        desk,
        names::COMPARE,
        &[line, run.len() as u64, walk.len() as u64, ends.len() as u64],
    );
    turns(desk, out, walk, ends);
    verdict(desk, out, run, walk, ends, equal);
}

// The run on two copies of the store; the store and the run stay as they are.
pub fn compare(s: &[u64], desk: &mut [u64], out: &mut [u8], run: &[u64]) -> Result<(), u64> {
    let mut by_ends = [0u64; STORE_WORDS];
    let mut walked = [0u64; STORE_WORDS];
    copy(s, &mut by_ends);
    copy(s, &mut walked);
    let mut elected = [[0u64; ELECTED_WORDS]; MOST_RECORDS];
    let mut listed = [[0u64; ELECTED_WORDS]; MOST_RECORDS];
    let (walk, ends) = both_of(
        &mut walked,
        &mut by_ends,
        &desk[..],
        run,
        &mut listed,
        &mut elected,
    )?;
    tell_both(desk, out, run, walk, ends, by_ends == walked);
    Ok(())
}
