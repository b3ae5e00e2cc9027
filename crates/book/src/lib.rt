// The book of pending stops: the types that its calls lend, take and answer, from orderbook-rs's stop_orders.rs. What
// the calls mean stands in specs/, and what holds of them in proofs/; no code runs here.
#![tactic(auto)]

use error::Refusal;
use pricelevel::{Holder, Id, Price, Quantity, Seq, Side, TwoWords};
use stop_protection::{LimitPrice, StopProtection};
use stop_terms::StopTerms;
use uuid_v5::Uuid;

// The words of a store: those of its header and of each record, the most records, and the words of the largest store. A
// record's links stand at two of its words; the others are data.
pub const HEADER_WORDS: usize = 9;

pub const RECORD_WORDS: usize = 15;

pub const MOST_RECORDS: usize = 545;

pub const STORE_WORDS: usize = HEADER_WORDS + RECORD_WORDS * MOST_RECORDS;

pub const DATA_WORDS: usize = 13;

pub const NEXT_BY_STOP: usize = 9;

pub const NEXT_BY_WATERMARK: usize = 10;

// The most prices of a run, the most trial prices of a ladder, and the words of a script's entry.
pub const MOST_PRICES: usize = 4096;

pub const MOST_TRIAL_PRICES: usize = 64;

pub const SCRIPT_ENTRY_WORDS: usize = 5;

// The words of an entry of a list: of the elected, whose last word says whether the child is pending, and of the moved,
// of which a segment lists at most two a stop.
pub const ELECTED_WORDS: usize = 14;

pub const PENDING_PLACE: usize = ELECTED_WORDS - 1;

pub const MOVED_WORDS: usize = 4;

pub const MOST_MOVES: usize = 2 * MOST_RECORDS;

pub type ElectedWords = [u64; ELECTED_WORDS];

pub type MovedWords = [u64; MOVED_WORDS];

// The words of a stop where it is answered or listed: its record's without the links.
pub type StopWords = [u64; DATA_WORDS];

// The words of an entry of a ladder: the word of the electing prices, their number, and the place of the first.
pub const LADDER_WORDS: usize = 3;

pub type LadderWords = [u64; LADDER_WORDS];

// A pending stop: its identity, its terms as they stand, its quantity, its admission sequence and its holder.
#[derive(Clone, Copy)]
pub struct StopEntry {
    pub id: Id,
    pub terms: StopTerms,
    pub quantity: Quantity,
    pub seq: Seq,
    pub holder: Holder,
}

// The four chains of a store: a side's stops by stop price, in the order of election, and by watermark, in the order of
// trailing.
#[derive(Clone, Copy)]
pub enum Chain {
    ByStop(Side),
    ByWatermark(Side),
}

// The five chains of a store: those four, and that of the free records.
#[derive(Clone, Copy)]
pub enum StoreChain {
    Ordered(Chain),
    Free,
}

// A change of a pending stop. Its watermark and trail stay.
#[derive(Clone, Copy)]
pub enum OrderUpdate {
    UpdateQuantity(Quantity),
    UpdatePrice(Price),
    UpdatePriceAndQuantity(Price, Quantity),
    Replace(Side, Price, Quantity),
}

// Which pending stops to collect: those of one holder, of one side, or with a stop price from the lowest to the highest.
#[derive(Clone, Copy)]
pub enum Selector {
    ByHolder(Holder),
    BySide(Side),
    ByPriceRange(Price, Price),
}

// One sweep's prints: the price before it, its first print and its last.
#[derive(Clone, Copy)]
pub struct PrintSegment {
    pub prev: Option<Price>,
    pub first: Price,
    pub last: Price,
}

// The recorder of the current sweep's first print: whether one was recorded and not taken yet, whether a price came
// before it, that price, and the print.
#[derive(Clone, Copy)]
pub struct PrintPath {
    pub open: bool,
    pub has_prev: bool,
    pub prev: Price,
    pub first: Price,
}

// A stop that a print elected: as it was when it left the book, the print, the limit and the identity of its child
// order, and whether that identity is pending in the book after the evaluation.
#[derive(Clone, Copy)]
pub struct Elected {
    pub id: Id,
    pub side: Side,
    pub stop: Price,
    pub quantity: Quantity,
    pub seq: Seq,
    pub trigger: Price,
    pub limit: Option<LimitPrice>,
    pub child: Id,
    pub pending: bool,
}

// A stop that a print ratcheted, with its new stop price.
#[derive(Clone, Copy)]
pub struct Moved {
    pub id: Id,
    pub stop: Price,
}

// The settings of an evaluation: the kill switch, under which stops trail and none is elected; the collar, or none; and
// the namespace of child identities.
#[derive(Clone, Copy)]
pub struct Settings {
    pub kill: bool,
    pub protection: Option<StopProtection>,
    pub namespace: Uuid,
}

// ---------------------------------------------------------------------
// What calls answer

// The answer of an admission, and the print path after it.
#[derive(Clone, Copy)]
pub struct Admission {
    pub answer: Result<Seq, Refusal>,
    pub path: PrintPath,
}

// What clear answers, and the print path after it.
#[derive(Clone, Copy)]
pub struct Cleared {
    pub answer: Result<(), Refusal>,
    pub path: PrintPath,
}

// The pending quantity of each side.
#[derive(Clone, Copy)]
pub struct Totals {
    pub sell: TwoWords,
    pub buy: TwoWords,
}

// How many stops were moved, once per point, and how many were elected.
#[derive(Clone, Copy)]
pub struct Counts {
    pub moves: u64,
    pub elected: u64,
}

// How many stops were moved, once per point, how many were elected, and how many script entries were used.
#[derive(Clone, Copy)]
pub struct PassCounts {
    pub moves: u64,
    pub elected: u64,
    pub used: u64,
}

// The answer of a run, and the print path after it.
#[derive(Clone, Copy)]
pub struct StopRun {
    pub answer: Result<PassCounts, Refusal>,
    pub path: PrintPath,
}
