// Limits, collars and child identities for hosts: every argument as words. `yubtomiq` says what each call does.
#![tactic(auto)]

ghost use Rattle.std.specs.Prelude.{◌≡◌};
ghost use Rattle.stop_protection.specs.Collar.{try_new, limit_words};
ghost use Rattle.host_words.specs.Answers.{Told, number, id_words};
ghost use Rattle.host_words.specs.ByWords.{limit_by_words, check_of, child_by_words};

use evaluation_words::protection_of;
use host_words::UNKNOWN;
use pricelevel::Price;
use stop_protection::{StopProtection, limit_under};
use term_words::{id_known, id_of, id_words, side_known};
use uuid_v5::Uuid;

pub fn limit_price(collar: u64, side: u64, stop_price: u64, answer: &mut [u64; 3]) -> u64
    ensures { Told limit_words (limit_by_words collar side stop_price) answer.old result answer.new }
{
    if !side_known(side) {
        return UNKNOWN;
    }
    let protection = protection_of(collar);
    let limit = limit_under(protection, stored_stops::side_from(side), Price(stop_price));
    *answer = stop_protection::limit_words(limit);
    0
}

pub fn check_collar(collar: u64) -> u64
    ensures { result ≡ number (try_new collar) }
{
    match StopProtection::try_new(collar) {
        Ok(_) => 0,
        Err(e) => e.number(),
    }
}

pub fn check_tick_size(collar: u64, tick_size: u64) -> u64
    ensures { result ≡ number (check_of tick_size (try_new collar)) }
{
    let made = StopProtection::try_new(collar);
    match made {
        Ok(protection) => match protection.check_tick_size(tick_size) {
            Ok(()) => 0,
            Err(e) => e.number(),
        },
        Err(e) => e.number(),
    }
}

pub fn stop_trigger_order_id(namespace: &[u64; 2], id: &[u64; 3], answer: &mut [u64; 3]) -> u64
    ensures { Told id_words (child_by_words namespace.now id.now) answer.old result answer.new }
{
    if !id_known(id) {
        return UNKNOWN;
    }
    let of = Uuid {
        high: namespace[0],
        low: namespace[1],
    };
    let parent = id_of(id);
    *answer = id_words(stop_trigger::stop_trigger_order_id(of, parent));
    0
}
