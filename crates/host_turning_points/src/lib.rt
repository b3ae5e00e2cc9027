// The turning points of a run for hosts: every argument as words. `yubtomiq` says what the call does.
#![tactic(auto)]

ghost use Rattle.std.specs.Prelude.{map, ◌≡◌, length};
ghost use Rattle.book.specs.Calls.{written};
ghost use Rattle.host_words.specs.Answers.{Told, listed_words};
ghost use Rattle.host_words.specs.ByWords.{turning_points_by_words};
ghost use Rattle.pricelevel.specs.Price.{price_word};

pub fn turning_points(prices: &[u64], list: &mut [u64], answer: &mut [u64; 1]) -> u64
    ensures { let o = turning_points_by_words prices.now (length list.old) in
        Told listed_words o.answer answer.old result answer.new
        × (list.new ≡ written (map price_word o.listed) list.old) }
{
    let listed = turning_points::turning_points(prices, list);
    answer_words::answer(listed, answer)
}
