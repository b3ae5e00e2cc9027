// Lent lists of records that are read: a thin reader of one entry, and the loop that puts the words of the first entries
// into a list of words, for the elected and the moved alike.
#![tactic(auto)]

ghost use Rattle.std.specs.Prelude.{◌<◌, ◌≤◌, [], map, ◌≡◌, length, get_or, set, take as firsts};
ghost use Rattle.book.specs.Calls.{written};

use entry_records::Recorded;
use entry_words::InWords;

// The entry at a place of a lent list.
pub fn entry_at<T: Recorded<N> + Copy, const N: usize>(list: &[T], at: usize) -> T
    requires { at < length list.now }
    ensures { result ≡ get_or list.now at (T.of_words []) }
{
    list[at]
}

// Puts the words of an entry at a place of a list; the others stay.
fn put<T: InWords<N>, const N: usize>(words: &mut [[u64; N]], at: usize, entry: T)
    requires { at < length words.old }
    ensures { words.new ≡ set words.old at (T.handed entry) }
{
    words[at] = entry.words();
}

// Writes the words of the first n entries of a lent list; later words stay.
pub fn read<T: Recorded<N> + InWords<N> + Copy, const N: usize>(
    words: &mut [[u64; N]],
    list: &[T],
    n: usize,
)
    requires { (n ≤ length words.old) × (n ≤ length list.now) }
    ensures { words.new ≡ written (map T.handed (firsts n list.now)) words.old }
{
    for i in 0..n {
        put(words, i, entry_at(list, i));
    }
}
