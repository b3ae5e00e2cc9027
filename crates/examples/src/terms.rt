// A stop's terms: trailed, elected_by, inconsistency, and the preview.
use crate::print;
use pricelevel::{Price, Side};
use stop_terms::{Inconsistency, StopTerms};

fn terms(side: Side, stop: u64, watermark: u64, trail: u64) -> StopTerms {
    StopTerms {
        side,
        stop: Price(stop),
        watermark: Price(watermark),
        trail,
    }
}

fn ask(what: &[u8], side: Side, stop: u64, watermark: u64, trail: u64) {
    print::text(what);
    print::side(side);
    print::number(stop);
    print::number(watermark);
    print::number(trail);
}

fn trail(side: Side, stop: u64, watermark: u64, trail: u64, price: u64) {
    ask(b"trailed ", side, stop, watermark, trail);
    print::number(price);
    print::text(b":");
    let after = terms(side, stop, watermark, trail).trailed(Price(price));
    print::number(after.stop.0);
    print::number(after.watermark.0);
    print::number(after.trail);
    print::text(b"\n");
}

// The stop and the watermark after a trade, and the trail, which stays.
pub fn trails() {
    trail(Side::Sell, 90, 100, 10, 105);
    trail(Side::Sell, 90, 100, 10, 100);
    trail(Side::Sell, 90, 100, 200, 105);
    trail(Side::Sell, 95, 100, 10, 101);
    trail(Side::Buy, 110, 100, 10, 95);
    trail(Side::Buy, u64::MAX, u64::MAX, 10, u64::MAX - 2);
    trail(Side::Buy, 110, 100, 10, 100);
    trail(Side::Sell, 0, 0, 1, 1);
    trail(Side::Sell, 0, 0, u64::MAX, u64::MAX);
    trail(Side::Buy, u64::MAX, u64::MAX, u64::MAX, 0);
    trail(Side::Buy, u64::MAX, u64::MAX, 1, u64::MAX - 1);
}

fn elect(side: Side, stop: u64, price: u64) {
    ask(b"elected_by ", side, stop, stop, 1);
    print::number(price);
    if terms(side, stop, stop, 1).elected_by(Price(price)) {
        print::text(b": yes\n");
    } else {
        print::text(b": no\n");
    }
}

pub fn elections() {
    elect(Side::Sell, 95, 95);
    elect(Side::Sell, 95, 96);
    elect(Side::Buy, 105, 105);
    elect(Side::Buy, 105, 104);
    elect(Side::Sell, 0, 0);
    elect(Side::Buy, u64::MAX, u64::MAX);
}

fn inconsistency(side: Side, stop: u64, watermark: u64, trail: u64) {
    ask(b"inconsistency ", side, stop, watermark, trail);
    match terms(side, stop, watermark, trail).inconsistency() {
        None => print::text(b": none\n"),
        Some(Inconsistency::ZeroTrail) => print::text(b": zero trail\n"),
        Some(Inconsistency::SellAboveWatermark) => print::text(b": sell above watermark\n"),
        Some(Inconsistency::BuyBelowWatermark) => print::text(b": buy below watermark\n"),
    }
}

pub fn inconsistencies() {
    inconsistency(Side::Sell, 100, 100, 1);
    inconsistency(Side::Sell, 101, 100, 1);
    inconsistency(Side::Sell, 101, 100, 0);
    inconsistency(Side::Buy, 100, 100, 1);
    inconsistency(Side::Buy, 99, 100, 1);
    inconsistency(Side::Buy, 99, 100, 0);
}

fn preview(side: Side, stop: u64, watermark: u64, trail: u64, price: u64) {
    ask(b"preview ", side, stop, watermark, trail);
    print::number(price);
    print::text(b":");
    let answer = repricing::calculate_trailing_stop_price(
        side,
        Price(stop),
        trail,
        Price(watermark),
        Price(price),
    );
    match answer {
        None => print::text(b" none"),
        Some(a) => {
            print::number(a.stop.0);
            print::number(a.reference.0);
        }
    }
    print::text(b"\n");
}

pub fn previews() {
    preview(Side::Sell, 90, 100, 10, 105);
    preview(Side::Sell, 90, 100, 10, 100);
    preview(Side::Sell, 90, 100, 200, 105);
    preview(Side::Sell, 95, 100, 10, 101);
    preview(Side::Buy, 110, 100, 10, 95);
    preview(Side::Buy, u64::MAX, u64::MAX, 10, u64::MAX - 2);
    preview(Side::Buy, 105, 100, 10, 95);
}
