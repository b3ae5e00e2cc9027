// The refusals of document 01, "The questions a call goes through", and of the requests of document 02. They stand for
// the Rust's OrderBookError; where that has one error for several questions, each question has its own refusal here.
#![tactic(auto)]

ghost use Rattle.std.specs.Prelude.{◌≡◌};
ghost use Rattle.error.specs.Questions.{question, asked};
ghost use Rattle.error.specs.Refusal.{refusal_number};
ghost use Rattle.error.specs.Verdict.{told_verdict};

#[derive(Clone, Copy)]
pub enum Refusal {
    StoreNotWellFormed,
    LayoutOutOfRange,
    KillSwitchActive,
    ZeroQuantity,
    ZeroTrail,
    StopBeyondWatermark,
    StopWouldTrigger,
    DuplicateOrderId,
    TrailOffTick,
    NoFreeRecord,
    SequenceExhausted,
    OrderNotFound,
    SamePrice,
    ListTooShort,
    InvalidScript,
    PriceCountOutOfRange,
    ZeroCollar,
    CollarOffTick,
    TrialPriceCountOutOfRange,
    ListsDiffer,
}

impl Refusal {
    // The number of the question that was answered no.
    pub fn number(self) -> u64
        ensures { result ≡ refusal_number self }
    {
        match self {
            Refusal::StoreNotWellFormed => 1,
            Refusal::LayoutOutOfRange => 2,
            Refusal::KillSwitchActive => 3,
            Refusal::ZeroQuantity => 4,
            Refusal::ZeroTrail => 5,
            Refusal::StopBeyondWatermark => 6,
            Refusal::StopWouldTrigger => 7,
            Refusal::DuplicateOrderId => 8,
            Refusal::TrailOffTick => 9,
            Refusal::NoFreeRecord => 10,
            Refusal::SequenceExhausted => 11,
            Refusal::OrderNotFound => 12,
            Refusal::SamePrice => 13,
            Refusal::ListTooShort => 14,
            Refusal::InvalidScript => 15,
            Refusal::PriceCountOutOfRange => 16,
            Refusal::ZeroCollar => 17,
            Refusal::CollarOffTick => 18,
            Refusal::TrialPriceCountOutOfRange => 19,
            Refusal::ListsDiffer => 20,
        }
    }
}

// A call's questions, asked one after the other.
pub trait Ask {
    // The verdict with one question more.
    fn ask(self, holds: bool, refusal: Refusal) -> Self;
}

// What the questions of a call come to: all are answered yes, or one is the first that is answered no.
impl Ask for Result<(), Refusal> {
    // One question more, and the refusal that it gives where it is the first that does not hold.
    fn ask(self, holds: bool, refusal: Refusal) -> Self
        ensures { told_verdict result ≡ asked (told_verdict self) (question (refusal_number refusal) holds) }
    {
        match self {
            Err(first) => Err(first),
            Ok(()) => {
                if holds {
                    return Ok(());
                }
                Err(refusal)
            }
        }
    }
}
