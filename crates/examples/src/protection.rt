// The collar and the limit.
use crate::print;
use error::Refusal;
use pricelevel::{Price, Side};
use stop_protection::{StopProtection, limit_under};

fn refused(e: Refusal) {
    print::text(b" refused");
    print::number(e.number());
}

fn collar(size: u64) {
    print::text(b"try_new");
    print::number(size);
    print::text(b":");
    match StopProtection::try_new(size) {
        Ok(p) => print::number(p.collar()),
        Err(e) => refused(e),
    }
    print::text(b"\n");
}

pub fn collars() {
    collar(0);
    collar(1);
    collar(u64::MAX);
}

// The limit's two words, high and low. A size of 0 asks for no collar.
fn limit(side: Side, stop: u64, size: u64) {
    print::text(b"limit ");
    print::side(side);
    print::number(stop);
    print::number(size);
    let protection = StopProtection::try_new(size).ok();
    print::text(b":");
    match limit_under(protection, side, Price(stop)) {
        None => print::text(b" none"),
        Some(at) => {
            let words = at.0;
            print::number(words.high);
            print::number(words.low);
        }
    }
    print::text(b"\n");
}

pub fn limits() {
    limit(Side::Sell, 95, 5);
    limit(Side::Sell, 95, 100);
    limit(Side::Sell, 95, 95);
    limit(Side::Buy, 105, 5);
    limit(Side::Buy, StopProtection::HIGHEST_PRICE, 1);
    limit(Side::Buy, u64::MAX - 1, 1);
    limit(Side::Buy, 1, u64::MAX);
    limit(Side::Buy, StopProtection::LOWEST_PRICE, u64::MAX);
    limit(Side::Buy, u64::MAX, u64::MAX);
    limit(Side::Sell, StopProtection::HIGHEST_PRICE, 1);
    limit(Side::Sell, u64::MAX, u64::MAX);
    limit(Side::Sell, StopProtection::LOWEST_PRICE, 1);
    limit(Side::Sell, 95, 0);
    limit(Side::Buy, 105, 0);
}

fn tick(size: u64, tick_size: u64) {
    print::text(b"check_tick_size");
    print::number(size);
    print::number(tick_size);
    print::text(b":");
    match StopProtection::try_new(size) {
        Ok(p) => match p.check_tick_size(tick_size) {
            Ok(()) => print::text(b" ok"),
            Err(e) => refused(e),
        },
        Err(e) => refused(e),
    }
    print::text(b"\n");
}

pub fn ticks() {
    tick(10, 5);
    tick(10, 4);
    tick(10, 0);
    tick(10, 1);
    tick(5, 10);
    tick(0, 5);
}
