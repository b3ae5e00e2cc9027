// The ladder for hosts: every argument as words. `yubtomiq` says what it does.
#![tactic(auto)]

ghost use Rattle.std.specs.Prelude.{map, ◌≡◌, length};
ghost use Rattle.book.specs.Calls.{written};
ghost use Rattle.book.specs.Ladder.{ladder_words};
ghost use Rattle.host_words.specs.Answers.{Told, listed_words};
ghost use Rattle.host_words.specs.ByWords.{ladder_by_words};

use book::LadderWords;

pub fn ladder(s: &[u64], prices: &[u64], list: &mut [LadderWords], answer: &mut [u64; 1]) -> u64
    ensures { let o = ladder_by_words prices.now s.now (length list.old) in
        Told listed_words o.answer answer.old result answer.new
        × (list.new ≡ written (map ladder_words o.listed) list.old) }
{
    let listed = ladder::ladder(s, prices, list);
    answer_words::answer(listed, answer)
}
