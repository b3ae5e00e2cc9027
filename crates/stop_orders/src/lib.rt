// The public face: every call of orderbook-rs's stop_orders.rs that a host makes, none of which asks anything of what
// it is given, handed on with its contract from the crate that has it. Those on a lent path and on lent lists of
// `Elected` and `Moved` come from the crates lent_*, in these forms. The methods of `StopTerms` (trailed, elected_by,
// inconsistency) and of `StopProtection` (try_new, limit_price, check_tick_size) come with these types, and
// `Refusal::number` gives the number of a refusal.

// The values that calls take and answer
#![tactic(auto)]

pub use book::{
    Counts, Elected, LadderWords, Moved, OrderUpdate, PassCounts, PrintPath, PrintSegment,
    Selector, Settings, StopEntry, StopWords, Totals,
};
pub use error::Refusal;
pub use lent_step::PrintStep;
pub use pricelevel::{Holder, Id, IdKind, Price, Quantity, Seq, Side, TwoWords};
pub use repricing::Adjustment;
pub use stop_protection::{LimitPrice, StopProtection};
pub use stop_terms::{Inconsistency, StopTerms};
pub use uuid_v5::Uuid;

// The limit of a stop's order under a collar that may be absent; a limit as words: whether it is there, high, low.
pub use stop_protection::{limit_under, limit_words};

// Lays a store of n records and a tick, 0 for none, out in lent words. Refused: n is not 1 to 545, or there are too few
// words (2).
pub use store_layout::layout_store;

// Whether lent words are a well-formed store. The words are only read.
pub use form::well_formed;

// Changes the pending stop of an identity; a quantity of zero cancels it. Refused: the store is not well formed (1); no
// such stop (12); a change of price to the same (13); quantity zero (4); the stop beyond its watermark (6) or elected
// by the last trade (7); no sequence left where one is taken (11).
pub use changes::update_pending_stop;

// Takes the pending stop of an identity out. Refused: the store is not well formed (1); no such stop (12).
pub use store_calls::cancel_pending_stop;

// The pending stop of an identity, if there is one. The store is only read. Refused: it is not well formed (1).
pub use store_calls::pending_stop_order;

// Lists the pending stops that a selector takes, by rising sequence; the store is only read. Refused: it is not well
// formed (1); the list is shorter than the pending count (14).
pub use collect::collect;

// Lists the same and then takes the listed stops out, in that order. Refused as collect is.
pub use mass_cancel::mass_cancel;

// Lists which of some trial prices elect each pending stop, as it stands, by rising sequence; the store is only read.
// Refused: it is not well formed (1); not 1 to 64 prices (19); the list is shorter than the pending count (14).
pub use ladder::ladder;

// The pending quantity of each side. The store is only read. Refused: it is not well formed (1).
pub use store_calls::pending_stop_quantity;

// Lists the turning points of a run: its first price, each at which it turns, and its last. Refused: not 1 to 4,096 prices
// (16); fewer places than prices (14).
pub use turning_points::turning_points;

// The stop price that a market price leads to, if it improves. Nothing is lent.
pub use repricing::calculate_trailing_stop_price;

// The identity of an elected stop's child order. Nothing is lent.
pub use stop_trigger::stop_trigger_order_id;

// ---------------------------------------------------------------------
// The print path, lent

// Records a print, given how many stops are pending: a sweep's first print opens the path, if there are any.
pub use lent_path::record_print;

// Takes the path's segment, up to the last trade, and closes the path.
pub use lent_path::take_path;

// Closes the path.
pub use lent_path::reset_path;

// ---------------------------------------------------------------------
// The store and the lent path

// Admits a stop for its holder. Refused: the store is not well formed (1); the kill switch is on (3); quantity (4) or trail (5) zero;
// the stop beyond its watermark (6) or elected by the last trade (7); its identity pending (8); the trail off the tick
// (9); no free record (10); no sequence left (11).
pub use lent_store::admit_trailing_stop;

// Lays the store out anew with the same number of records and tick, and resets the path. Refused: it is not well formed
// (1).
pub use lent_store::clear;

// ---------------------------------------------------------------------
// The calls that evaluate, over lent lists of records: entries are written from the start of a list, and later ones
// stay

// A segment: a point at its first print, and one at its last if that differs. Refused: the store is not well formed
// (1); a list is shorter than the pending count asks (14).
pub use lent_segment::segment;

// What a segment would elect and move, with the store only read. Refused as a segment is.
pub use lent_ask::ask_segment;

// The segment that was asked, if the store of this moment gives these very lists, in length and every field; they are only
// read. Asking and then committing, with no call between, is the segment. Refused: the store is not well formed (1); it
// gives other lists (20).
pub use lent_commit::commit_segment;

// A step of a walk: a point at one print of a run, told where the run comes from and whether it falls as a whole. Along a
// run the steps list what its walk lists, each with its own end for whether a child is pending. Refused: the store is not
// well formed (1); a list is shorter than the pending count (14).
pub use lent_step::step;

// A walk: a point at each price in turn. Refused: the store is not well formed (1); the list is shorter than the
// pending count (14); not 1 to 4,096 prices (16).
pub use lent_walk::walk;

// A pass: segments from a queue, at first this one, until it or the store is empty. Each elected stop whose child
// identity is free uses the next script entry. Refused: the store is not well formed (1); the list is shorter than the
// pending count (14); the script is not well formed (15).
pub use lent_pass::evaluate_pending_stops;

// A run over path and store: takes the path's segment, up to the last trade, passes, and resets the path. Where nothing
// is pending or the path is closed it answers zeros and leaves all alone. Refused as a pass is.
pub use lent_run::run_stop_triggers;
