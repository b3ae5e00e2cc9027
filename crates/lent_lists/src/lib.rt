// The lent lists of records: a thin writer that places one entry and leaves the others, and the loop that fills a list
// from its start, for the elected and the moved alike.
#![tactic(auto)]

ghost use Rattle.std.specs.Prelude.{◌<◌, ◌≤◌, map, ◌≡◌, length, set, take as firsts};
ghost use Rattle.book.specs.Calls.{written};

use entry_records::Recorded;

// Stores an entry at a place of a lent list; the others stay.
pub fn place<T: Copy>(list: &mut [T], at: usize, entry: T)
    requires { at < length list.old }
    ensures { list.new ≡ set list.old at entry }
{
    list[at] = entry;
}

// Writes the first n entries of a lent list from their words; later ones stay.
pub fn fill<T: Recorded<N> + Copy, const N: usize>(list: &mut [T], words: &[[u64; N]], n: usize)
    requires { (n ≤ length list.old) × (n ≤ length words.now) }
    ensures { list.new ≡ written (map T.of_words (firsts n words.now)) list.old }
{
    for i in 0..n {
        place(list, i, T::at(words, i));
    }
}
