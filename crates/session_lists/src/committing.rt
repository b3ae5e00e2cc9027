// A line that commits: the entries of both lists stand in it.
use book::{ELECTED_WORDS, ElectedWords, MOVED_WORDS, MovedWords};
use entry_groups::{read_elected, read_moved};
use session_text::lent::{LENT, MOST_ELECTED, MOST_MOVED};
use session_text::printing;
use word_groups::{first_words, rest, word};
use yubtomiq::yubtomiq_commit_segment;

// Where a line has how many entries the lists have, and the first of them.
const COUNTS: usize = 8;

const ENTRIES: usize = 10;

fn commit_of(
    s: &mut [u64],
    n: &[u64],
    elected: &[ElectedWords],
    moved: &[MovedWords],
    answer: &mut [u64; 2],
) -> u64 {
    yubtomiq_commit_segment(
        s,
        &first_words(n),
        &first_words(rest(n, 4)),
        elected,
        moved,
        answer,
    )
}

fn with_lists(s: &mut [u64], n: &[u64], elected: &[ElectedWords], moved: &[MovedWords]) {
    let mut answer = [LENT; 2];
    let r = commit_of(s, n, elected, moved, &mut answer);
    printing::answer(r, &answer);
}

// Commits with the lists of the line, of at most one entry more than a store can list.
pub fn commit(s: &mut [u64], n: &[u64]) {
    let mut fills = [[0u64; ELECTED_WORDS]; MOST_ELECTED];
    let mut moves = [[0u64; MOVED_WORDS]; MOST_MOVED];
    let elected = word(n, COUNTS) as usize;
    let moved = word(n, COUNTS + 1) as usize;
    if elected <= MOST_ELECTED && moved <= MOST_MOVED {
        read_elected(&mut fills, rest(n, ENTRIES));
        read_moved(&mut moves, rest(n, ENTRIES + ELECTED_WORDS * elected));
        let e: &[ElectedWords] = &fills;
        let m: &[MovedWords] = &moves;
        with_lists(s, n, &e[0..elected], &m[0..moved]);
    }
}
