// The calls of document 01 for hosts in C and Rust: every argument as words, under a plain name. A call returns 0 where
// it is accepted, else the number of the refusal, and then alters nothing; before all else it asks that each kind,
// side, change and path flag is a known value (255).
#![tactic(auto)]

ghost use Rattle.std.specs.Prelude.{map, ◌++◌, ◌≡◌, length};
ghost use Rattle.book.specs.Calls.{written};
ghost use Rattle.book.specs.Store.{lay_out, pending_quantity};
ghost use Rattle.book.specs.Words.{well_formed};
ghost use Rattle.book.specs.Entries.{elected_words, moved_words, stop_words};
ghost use Rattle.book.specs.Ladder.{ladder_words};
ghost use Rattle.stop_protection.specs.Collar.{try_new, limit_words};
ghost use Rattle.pricelevel.specs.Price.{to_price, price_word};
ghost use Rattle.both_runs.specs.Turns as runs;
ghost use Rattle.both_ways.specs.Alike.{Decided};
ghost use Rattle.both_ways.specs.Ends.{Comparable};
ghost use Rattle.yubtomiq.specs.BothWays.{ends_by_words, turns_by_words, way_words};
ghost use Rattle.host_words.specs.Answers.{Told, number, flag, seq_words, id_words, terms_words, segment_words, found_words, listed_words, totals_words, counts_words, pass_words, preview_words};
ghost use Rattle.host_words.specs.ByWords.{admit_by_words, clear_by_words, cancel_by_words, update_by_words, find_by_words, collect_by_words, mass_cancel_by_words, ladder_by_words, turning_points_by_words, record_by_words, take_by_words, reset_by_words, segment_by_words, ask_by_words, commit_by_words, step_by_words, walk_by_words, pass_by_words, run_by_words, trailed_by_words, elected_by_words, inconsistency_by_words, preview_by_words, limit_by_words, check_of, child_by_words};

use book::{ElectedWords, LadderWords, MovedWords, StopWords};
use error::Refusal;
use host_words::{FoundWords, HolderWords, SelectorWords};

// ---------------------------------------------------------------------
// The store

// Lays out an empty store of n records. Refused: 2.
pub fn yubtomiq_layout_store(s: &mut [u64], n: u64, tick: u64) -> u64
    ensures { let o = lay_out n tick s.old in
        (result ≡ number o.answer)
        × (s.new ≡ o.words) }
{
    host_store::layout_store(s, n, tick)
}

// Whether the words are a well-formed store: 1 or 0.
pub fn yubtomiq_well_formed(s: &[u64]) -> u64
    ensures { result ≡ flag (well_formed s.now) }
{
    host_store::well_formed(s)
}

// Admits a stop for its holder, and answers its sequence. Refused: 255, 1, 3 to 11.
pub fn yubtomiq_admit_trailing_stop(
    s: &mut [u64],
    path: &mut [u64; 4],
    kill: u64,
    trade: &[u64; 2],
    id: &[u64; 3],
    terms: &[u64; 4],
    quantity: u64,
    holder: &HolderWords,
    answer: &mut [u64; 1],
) -> u64
    ensures { let o = admit_by_words kill trade.now id.now terms.now quantity holder.now s.old path.old in
        Told seq_words o.answer answer.old result answer.new
        × (s.new ≡ o.words)
        × (path.new ≡ o.path) }
{
    host_admission::admit_trailing_stop(s, path, kill, trade, id, terms, quantity, holder, answer)
}

// Changes the pending stop of an identity, and answers it after the change, or before it where a quantity of zero
// cancels. Refused: 255, 1, 12, 13, 4, 6, 7, 11.
pub fn yubtomiq_update_pending_stop(
    s: &mut [u64],
    id: &[u64; 3],
    update: &[u64; 4],
    trade: &[u64; 2],
    answer: &mut StopWords,
) -> u64
    ensures { let o = update_by_words id.now update.now trade.now s.old in
        Told stop_words o.answer answer.old result answer.new
        × (s.new ≡ o.words) }
{
    host_stops::update_pending_stop(s, id, update, trade, answer)
}

// Takes the pending stop of an identity out, and answers it. Refused: 255, 1, 12.
pub fn yubtomiq_cancel_pending_stop(s: &mut [u64], id: &[u64; 3], answer: &mut StopWords) -> u64
    ensures { let o = cancel_by_words id.now s.old in
        Told stop_words o.answer answer.old result answer.new
        × (s.new ≡ o.words) }
{
    host_stops::cancel_pending_stop(s, id, answer)
}

// Answers the pending stop of an identity, if there is one; the store is only read. Refused: 255, 1.
pub fn yubtomiq_pending_stop_order(s: &[u64], id: &[u64; 3], answer: &mut FoundWords) -> u64
    ensures { Told found_words (find_by_words id.now s.now) answer.old result answer.new }
{
    host_stops::pending_stop_order(s, id, answer)
}

// Answers the pending quantity of each side; the store is only read. Refused: 1.
pub fn yubtomiq_pending_stop_quantity(s: &[u64], answer: &mut [u64; 4]) -> u64
    ensures { Told totals_words (pending_quantity s.now) answer.old result answer.new }
{
    host_store::pending_stop_quantity(s, answer)
}

// Lists the pending stops that a selector takes, by rising sequence, and answers how many; the store is only read.
// Refused: 255, 1, 14.
pub fn yubtomiq_collect(
    s: &[u64],
    selector: &SelectorWords,
    list: &mut [StopWords],
    answer: &mut [u64; 1],
) -> u64
    ensures { let o = collect_by_words selector.now s.now (length list.old) in
        Told listed_words o.answer answer.old result answer.new
        × (list.new ≡ written (map stop_words o.listed) list.old) }
{
    host_collect::collect(s, selector, list, answer)
}

// Lists the same, takes the listed stops out, one after the other in that order, and answers how many. Refused: 255, 1,
// 14.
pub fn yubtomiq_mass_cancel(
    s: &mut [u64],
    selector: &SelectorWords,
    list: &mut [StopWords],
    answer: &mut [u64; 1],
) -> u64
    ensures { let o = mass_cancel_by_words selector.now s.old (length list.old) in
        Told listed_words o.answer answer.old result answer.new
        × (s.new ≡ o.words)
        × (list.new ≡ written (map stop_words o.listed) list.old) }
{
    host_collect::mass_cancel(s, selector, list, answer)
}

// Lists which of some trial prices elect each pending stop, as it stands, by rising sequence: a word whose bit j says that
// price j does, how many do, and the place of the first, or 64. Answers how many stops are listed; the store is only read.
// Refused: 1, 19, 14.
pub fn yubtomiq_ladder(
    s: &[u64],
    prices: &[u64],
    list: &mut [LadderWords],
    answer: &mut [u64; 1],
) -> u64
    ensures { let o = ladder_by_words prices.now s.now (length list.old) in
        Told listed_words o.answer answer.old result answer.new
        × (list.new ≡ written (map ladder_words o.listed) list.old) }
{
    host_ladder::ladder(s, prices, list, answer)
}

// Lays the store out anew with the same number of records and tick, and resets the path. Refused: 255, 1.
pub fn yubtomiq_clear(s: &mut [u64], path: &mut [u64; 4]) -> u64
    ensures { let o = clear_by_words s.old path.old in
        (result ≡ number o.answer)
        × (s.new ≡ o.words)
        × (path.new ≡ o.path) }
{
    host_store::clear(s, path)
}

// ---------------------------------------------------------------------
// The print path

// Records a print, given how many stops are pending. Refused: 255.
pub fn yubtomiq_record_print(path: &mut [u64; 4], pending: u64, prev: &[u64; 2], price: u64) -> u64
    ensures { let o = record_by_words pending prev.now price path.old in
        (result ≡ number o.answer)
        × (path.new ≡ o.path) }
{
    host_path::record_print(path, pending, prev, price)
}

// Takes the path's segment, up to the last trade, closes the path, and answers the segment if there was one. Refused:
// 255.
pub fn yubtomiq_take_path(path: &mut [u64; 4], trade: &[u64; 2], answer: &mut [u64; 5]) -> u64
    ensures { let o = take_by_words trade.now path.old in
        Told segment_words o.answer answer.old result answer.new
        × (path.new ≡ o.path) }
{
    host_path::take_path(path, trade, answer)
}

// Closes the path. Refused: 255.
pub fn yubtomiq_reset_path(path: &mut [u64; 4]) -> u64
    ensures { let o = reset_by_words path.old in
        (result ≡ number o.answer)
        × (path.new ≡ o.path) }
{
    host_path::reset_path(path)
}

// ---------------------------------------------------------------------
// Evaluation

// A segment, which lists the elected and the moved, and answers how many moves and elected there were. Refused: 1, 14.
pub fn yubtomiq_segment(
    s: &mut [u64],
    settings: &[u64; 4],
    prints: &[u64; 4],
    elected: &mut [ElectedWords],
    moved: &mut [MovedWords],
    answer: &mut [u64; 2],
) -> u64
    ensures { let o = segment_by_words settings.now prints.now s.old (length elected.old)
        (length moved.old) in
        Told counts_words o.answer answer.old result answer.new
        × (s.new ≡ o.words)
        × (elected.new ≡ written (map elected_words o.elected) elected.old)
        × (moved.new ≡ written (map moved_words o.moved) moved.old) }
{
    host_evaluation::segment(s, settings, prints, elected, moved, answer)
}

// Lists what a segment would elect and move, and answers how many moves and elected there would be. The store is only
// read. Refused: 1, 14.
pub fn yubtomiq_ask_segment(
    s: &[u64],
    settings: &[u64; 4],
    prints: &[u64; 4],
    elected: &mut [ElectedWords],
    moved: &mut [MovedWords],
    answer: &mut [u64; 2],
) -> u64
    ensures { let o = ask_by_words settings.now prints.now s.now (length elected.old)
        (length moved.old) in
        Told counts_words o.answer answer.old result answer.new
        × (elected.new ≡ written (map elected_words o.elected) elected.old)
        × (moved.new ≡ written (map moved_words o.moved) moved.old) }
{
    host_commit::ask_segment(s, settings, prints, elected, moved, answer)
}

// Does the segment that was asked, if the store of this moment gives the lists that are handed in, in length and every
// word, and answers how many moves and elected there were. No list is written. Refused: 1, 20.
pub fn yubtomiq_commit_segment(
    s: &mut [u64],
    settings: &[u64; 4],
    prints: &[u64; 4],
    elected: &[ElectedWords],
    moved: &[MovedWords],
    answer: &mut [u64; 2],
) -> u64
    ensures { let o = commit_by_words settings.now prints.now elected.now moved.now s.old in
        Told counts_words o.answer answer.old result answer.new
        × (s.new ≡ o.words) }
{
    host_commit::commit_segment(s, settings, prints, elected, moved, answer)
}

// A step of a walk: a point at a price, arrived from another, of a run that falls as a whole (any word but 0) or does not.
// Lists the elected and the moved, and answers how many moves and elected there were. Refused: 1, 14.
pub fn yubtomiq_step(
    s: &mut [u64],
    settings: &[u64; 4],
    falls: u64,
    from: &[u64; 2],
    price: u64,
    elected: &mut [ElectedWords],
    moved: &mut [MovedWords],
    answer: &mut [u64; 2],
) -> u64
    ensures { let o = step_by_words settings.now falls from.now price s.old (length elected.old)
        (length moved.old) in
        Told counts_words o.answer answer.old result answer.new
        × (s.new ≡ o.words)
        × (elected.new ≡ written (map elected_words o.elected) elected.old)
        × (moved.new ≡ written (map moved_words o.moved) moved.old) }
{
    host_evaluation::step(s, settings, falls, from, price, elected, moved, answer)
}

// A walk, which lists the elected, and answers how many moves and elected there were. Refused: 1, 14, 16.
pub fn yubtomiq_walk(
    s: &mut [u64],
    settings: &[u64; 4],
    prev: &[u64; 2],
    prices: &[u64],
    elected: &mut [ElectedWords],
    answer: &mut [u64; 2],
) -> u64
    ensures { let o = walk_by_words settings.now prev.now prices.now s.old (length elected.old) in
        Told counts_words o.answer answer.old result answer.new
        × (s.new ≡ o.words)
        × (elected.new ≡ written (map elected_words o.elected) elected.old) }
{
    host_evaluation::walk(s, settings, prev, prices, elected, answer)
}

// A pass, which lists the elected, and answers how many moves, elected and used script entries there were. Refused: 1,
// 14, 15.
pub fn yubtomiq_evaluate_pending_stops(
    s: &mut [u64],
    settings: &[u64; 4],
    script: &[u64],
    prints: &[u64; 4],
    elected: &mut [ElectedWords],
    answer: &mut [u64; 3],
) -> u64
    ensures { let o = pass_by_words settings.now script.now prints.now s.old (length elected.old) in
        Told pass_words o.answer answer.old result answer.new
        × (s.new ≡ o.words)
        × (elected.new ≡ written (map elected_words o.elected) elected.old) }
{
    host_passes::evaluate_pending_stops(s, settings, script, prints, elected, answer)
}

// A run over path and store, up to the last trade: a pass over the path's segment, and the path reset; nothing where no
// stop is pending or the path is closed. Refused: 255, 1, 14, 15.
pub fn yubtomiq_run_stop_triggers(
    s: &mut [u64],
    path: &mut [u64; 4],
    settings: &[u64; 4],
    script: &[u64],
    trade: &[u64; 2],
    elected: &mut [ElectedWords],
    answer: &mut [u64; 3],
) -> u64
    ensures { let o = run_by_words settings.now script.now trade.now s.old (length elected.old)
        path.old in
        Told pass_words o.answer answer.old result answer.new
        × (s.new ≡ o.words)
        × (elected.new ≡ written (map elected_words o.elected) elected.old)
        × (path.new ≡ o.path) }
{
    host_passes::run_stop_triggers(s, path, settings, script, trade, elected, answer)
}

// ---------------------------------------------------------------------
// Both ways

// A segment from a run's first price to its last. Refused as a segment is, and without a price (16).
fn over_ends(
    s: &mut [u64],
    settings: &[u64; 4],
    prev: &[u64; 2],
    prices: &[u64],
    elected: &mut [ElectedWords],
    moved: &mut [MovedWords],
    answer: &mut [u64; 2],
) -> u64
    ensures { let o = ends_by_words settings.now prev.now prices.now s.old (length elected.old)
        (length moved.old) in
        Told counts_words o.answer answer.old result answer.new
        × (s.new ≡ o.words)
        × (elected.new ≡ written (map elected_words o.elected) elected.old)
        × (moved.new ≡ written (map moved_words o.moved) moved.old) }
{
    let count = prices.len();
    if count == 0 {
        return Refusal::PriceCountOutOfRange.number();
    }
    let prints = [prev[0], prev[1], prices[0], prices[count - 1]];
    yubtomiq_segment(s, settings, &prints, elected, moved, answer)
}

// A run of prices evaluated on one store by a segment over its ends, and on the other by a walk. Answers number, moves
// and elected of each; each may be refused by itself. Where the two stores are equal and well formed, the run never
// falls or never rises and has 1 to 4,096 prices, and the lists are as long as the calls demand, neither is refused, both
// list the same stops in the same order, alike but for their trigger prices, and the stores are equal again.
pub fn yubtomiq_evaluate_both_ways(
    ends: &mut [u64],
    run: &mut [u64],
    settings: &[u64; 4],
    prev: &[u64; 2],
    prices: &[u64],
    elected: &mut [ElectedWords],
    moved: &mut [MovedWords],
    listed: &mut [ElectedWords],
    answer: &mut [u64; 6],
)
    ensures { let o = ends_by_words settings.now prev.now prices.now ends.old (length elected.old)
        (length moved.old) in
        let p = walk_by_words settings.now prev.now prices.now run.old (length listed.old) in
        (Comparable (map to_price prices.now) ends.old run.old (length elected.old)
        (length moved.old) (length listed.old)
        → Decided o.answer p.answer ends.new run.new elected.new listed.new)
        × (answer.new ≡ way_words o.answer ++ way_words p.answer)
        × (ends.new ≡ o.words)
        × (elected.new ≡ written (map elected_words o.elected) elected.old)
        × (moved.new ≡ written (map moved_words o.moved) moved.old)
        × (run.new ≡ p.words)
        × (listed.new ≡ written (map elected_words p.elected) listed.old) }
{
    let mut first = [0u64; 2];
    let mut second = [0u64; 2];
    let number = over_ends(ends, settings, prev, prices, elected, moved, &mut first);
    let walked = yubtomiq_walk(run, settings, prev, prices, listed, &mut second);
    *answer = [number, first[0], first[1], walked, second[0], second[1]];
}

// Writes the turning points of a run: its first price, each high and low at which its direction changes, one for a level
// stretch, and its last. Answers how many there are, never more than prices. A walk over them elects what the walk over
// the run elects, and leaves the store that it leaves. Refused: 16, 14.
pub fn yubtomiq_turning_points(prices: &[u64], list: &mut [u64], answer: &mut [u64; 1]) -> u64
    ensures { let o = turning_points_by_words prices.now (length list.old) in
        Told listed_words o.answer answer.old result answer.new
        × (list.new ≡ written (map price_word o.listed) list.old) }
{
    host_turning_points::turning_points(prices, list, answer)
}

// A walk over a run's turning points, which are written to turns. Refused as these are, and as a walk is.
fn over_turns(
    s: &mut [u64],
    settings: &[u64; 4],
    prev: &[u64; 2],
    prices: &[u64],
    turns: &mut [u64],
    elected: &mut [ElectedWords],
    answer: &mut [u64; 2],
) -> u64
    ensures { let o = turns_by_words settings.now prev.now prices.now (length turns.old) s.old
        (length elected.old) in
        let t = turning_points_by_words prices.now (length turns.old) in
        Told counts_words o.answer answer.old result answer.new
        × (s.new ≡ o.words)
        × (elected.new ≡ written (map elected_words o.elected) elected.old)
        × (turns.new ≡ written (map price_word t.listed) turns.old) }
{
    let mut found = [0u64; 1];
    let number = yubtomiq_turning_points(prices, turns, &mut found);
    if number != 0 {
        return number;
    }
    let n = found[0] as usize;
    yubtomiq_walk(s, settings, prev, &turns[..n], elected, answer)
}

// A run of prices evaluated on one store by a walk over its turning points, which are written to turns, and on the other by
// a walk over the run. Answers number, moves and elected of each; each may be refused by itself. Where the two stores are
// equal and well formed, the run has 1 to 4,096 prices, and the lists are as long as the calls demand, neither is refused,
// both list the same stops in the same order, alike but for their trigger prices, and the stores are equal again.
pub fn yubtomiq_evaluate_both_runs(
    turned: &mut [u64],
    run: &mut [u64],
    settings: &[u64; 4],
    prev: &[u64; 2],
    prices: &[u64],
    turns: &mut [u64],
    elected: &mut [ElectedWords],
    listed: &mut [ElectedWords],
    answer: &mut [u64; 6],
)
    ensures { let o = turns_by_words settings.now prev.now prices.now (length turns.old) turned.old
        (length elected.old) in
        let p = walk_by_words settings.now prev.now prices.now run.old (length listed.old) in
        let t = turning_points_by_words prices.now (length turns.old) in
        (runs.Comparable (map to_price prices.now) turned.old run.old (length turns.old)
        (length elected.old) (length listed.old)
        → Decided o.answer p.answer turned.new run.new elected.new listed.new)
        × (answer.new ≡ way_words o.answer ++ way_words p.answer)
        × (turned.new ≡ o.words)
        × (elected.new ≡ written (map elected_words o.elected) elected.old)
        × (turns.new ≡ written (map price_word t.listed) turns.old)
        × (run.new ≡ p.words)
        × (listed.new ≡ written (map elected_words p.elected) listed.old) }
{
    let mut first = [0u64; 2];
    let mut second = [0u64; 2];
    let shorter = over_turns(turned, settings, prev, prices, turns, elected, &mut first);
    let whole = yubtomiq_walk(run, settings, prev, prices, listed, &mut second);
    *answer = [shorter, first[0], first[1], whole, second[0], second[1]];
}

// ---------------------------------------------------------------------
// Terms, limit and child

// Answers the terms after a trade. Refused: 255.
pub fn yubtomiq_trailed(terms: &[u64; 4], price: u64, answer: &mut [u64; 4]) -> u64
    ensures { Told terms_words (trailed_by_words terms.now price) answer.old result answer.new }
{
    host_terms::trailed(terms, price, answer)
}

// Whether a trade elects the stop: 1 or 0; or 255.
pub fn yubtomiq_elected_by(terms: &[u64; 4], price: u64) -> u64
    ensures { result ≡ elected_by_words terms.now price }
{
    host_terms::elected_by(terms, price)
}

// The inconsistency of the terms: 0 for none, a trail of zero (5), a stop on the wrong side of its watermark (6); or
// 255.
pub fn yubtomiq_inconsistency(terms: &[u64; 4]) -> u64
    ensures { result ≡ inconsistency_by_words terms.now }
{
    host_terms::inconsistency(terms)
}

// Answers the preview of a trailing stop: the new stop and reference, if there are any. Refused: 255.
pub fn yubtomiq_calculate_trailing_stop_price(
    side: u64,
    current_stop_price: u64,
    trail_amount: u64,
    last_reference_price: u64,
    current_market_price: u64,
    answer: &mut [u64; 3],
) -> u64
    ensures { Told preview_words
        (preview_by_words side current_stop_price trail_amount last_reference_price current_market_price)
        answer.old result answer.new }
{
    host_terms::calculate_trailing_stop_price(
        side,
        current_stop_price,
        trail_amount,
        last_reference_price,
        current_market_price,
        answer,
    )
}

// Answers the limit of a stop's order under a collar, if there is one. Refused: 255.
pub fn yubtomiq_limit_price(collar: u64, side: u64, stop_price: u64, answer: &mut [u64; 3]) -> u64
    ensures { Told limit_words (limit_by_words collar side stop_price) answer.old result answer.new }
{
    host_children::limit_price(collar, side, stop_price, answer)
}

// Whether a collar can be made. Refused: 17.
pub fn yubtomiq_check_collar(collar: u64) -> u64
    ensures { result ≡ number (try_new collar) }
{
    host_children::check_collar(collar)
}

// Whether a collar that can be made lies on a tick. Refused: 17, 18.
pub fn yubtomiq_check_tick_size(collar: u64, tick_size: u64) -> u64
    ensures { result ≡ number (check_of tick_size (try_new collar)) }
{
    host_children::check_tick_size(collar, tick_size)
}

// Answers the identity of the child order of a stop. Refused: 255.
pub fn yubtomiq_stop_trigger_order_id(
    namespace: &[u64; 2],
    id: &[u64; 3],
    answer: &mut [u64; 3],
) -> u64
    ensures { Told id_words (child_by_words namespace.now id.now) answer.old result answer.new }
{
    host_children::stop_trigger_order_id(namespace, id, answer)
}
