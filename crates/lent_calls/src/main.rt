// A program that runs the lent forms: a print is recorded on a lent path, and a segment is asked, committed with lists of
// records, and done. It prints the path, what each call answers, and the entries of the lists that it wrote: those
// written, and later ones, which stay.
#![tactic(auto)]

use book::{Counts, Elected, HEADER_WORDS, Moved, PrintPath, PrintSegment, RECORD_WORDS, Settings};
use error::Refusal;
use pricelevel::{Holder, Id, IdKind, Price, Quantity, Seq, Side};
use stop_terms::StopTerms;
use uuid_v5::Uuid;

// A path after a print, which is recorded on it where it is lent.
fn recorded_once(
    mut path: PrintPath,
    pending: u64,
    prev: Option<Price>,
    price: Price,
) -> PrintPath {
    stop_orders::record_print(&mut path, pending, prev, price);
    path
}

// A segment that is lent two lists, which are printed with its answer.
fn segment_once(
    s: &mut [u64],
    settings: Settings,
    prints: PrintSegment,
    mut elected: [Elected; 2],
    mut moved: [Moved; 3],
) {
    let answer = stop_orders::segment(s, settings, prints, &mut elected, &mut moved);
    print_segment(answer, elected, moved);
}

// What a segment would do, asked with two lists, which are printed with the answer.
fn ask_once(
    s: &[u64],
    settings: Settings,
    prints: PrintSegment,
    mut elected: [Elected; 2],
    mut moved: [Moved; 3],
) {
    let answer = stop_orders::ask_segment(s, settings, prints, &mut elected, &mut moved);
    print_segment(answer, elected, moved);
}

// A segment that is committed with two lists.
fn commit_once(
    s: &mut [u64],
    settings: Settings,
    prints: PrintSegment,
    elected: [Elected; 1],
    moved: [Moved; 1],
) {
    let answer = stop_orders::commit_segment(s, settings, prints, &elected, &moved);
    print_answer(answer);
}

fn number(n: u64) {
    io::write_all(1, b" ");
    io::print_decimal(1, n);
}

fn print_elected(e: Elected) {
    let stop = e.stop;
    let trigger = e.trigger;
    io::write_all(1, b"elected");
    number(stop.0);
    number(trigger.0);
    io::write_all(1, b"\n");
}

fn print_moved(m: Moved) {
    let stop = m.stop;
    io::write_all(1, b"moved");
    number(stop.0);
    io::write_all(1, b"\n");
}

fn print_answer(answer: Result<Counts, Refusal>) {
    match answer {
        Ok(c) => {
            io::write_all(1, b"moves");
            number(c.moves);
            io::write_all(1, b" elected");
            number(c.elected);
        }
        Err(refusal) => {
            io::write_all(1, b"refused");
            number(refusal.number());
        }
    }
    io::write_all(1, b"\n");
}

fn print_segment(answer: Result<Counts, Refusal>, elected: [Elected; 2], moved: [Moved; 3]) {
    print_answer(answer);
    for e in elected {
        print_elected(e);
    }
    for m in moved {
        print_moved(m);
    }
}

fn id(low: u64) -> Id {
    Id {
        kind: IdKind::Uuid,
        high: 0,
        low,
    }
}

fn blank_elected() -> Elected {
    Elected {
        id: id(0),
        side: Side::Buy,
        stop: Price(0),
        quantity: Quantity(0),
        seq: Seq(0),
        trigger: Price(0),
        limit: None,
        child: id(0),
        pending: false,
    }
}

// The entries of the stop that is asked about, with the price that elects it.

fn elected_at(trigger: Price) -> Elected {
    Elected {
        id: id(7),
        side: Side::Sell,
        stop: Price(97),
        quantity: Quantity(2),
        seq: Seq(0),
        trigger,
        limit: None,
        child: stop_orders::stop_trigger_order_id(Uuid { high: 0, low: 0 }, id(7)),
        pending: false,
    }
}

fn moved_once() -> Moved {
    Moved {
        id: id(7),
        stop: Price(97),
    }
}

fn blank_moved() -> Moved {
    Moved {
        id: id(0),
        stop: Price(0),
    }
}

// A sell stop of 2 at 95 that trails 100 by 5.
fn terms() -> StopTerms {
    StopTerms {
        side: Side::Sell,
        stop: Price(95),
        watermark: Price(100),
        trail: 5,
    }
}

fn closed_path() -> PrintPath {
    PrintPath {
        open: false,
        has_prev: false,
        prev: Price(0),
        first: Price(0),
    }
}

fn settings() -> Settings {
    Settings {
        kill: false,
        protection: None,
        namespace: Uuid { high: 0, low: 0 },
    }
}

// Lays a store out for four stops and admits one; the path after it.
fn begin(s: &mut [u64]) -> PrintPath {
    let _laid = stop_orders::layout_store(s, 4, 0);
    let admitted = admission::admit_trailing_stop(
        s,
        closed_path(),
        false,
        None,
        id(7),
        terms(),
        Quantity(2),
        Holder(1, 2, 3, 4),
    );
    admitted.path
}

// A sweep to 96, asked, committed in vain with another trigger, committed, and committed once more, in vain.
fn ask_and_commit(s: &mut [u64], prints: PrintSegment) {
    let asked = [elected_at(Price(96))];
    let others = [elected_at(Price(95))];
    let moved = [moved_once()];
    ask_once(
        &s[..],
        settings(),
        prints,
        [blank_elected(); 2],
        [blank_moved(); 3],
    );
    commit_once(s, settings(), prints, others, moved);
    commit_once(s, settings(), prints, asked, moved);
    commit_once(s, settings(), prints, asked, moved);
}

// A sweep from 102 down to 96: its first print is recorded on the path, and it ratchets the stop to 97 and elects it. It
// is asked and committed, and then, on a store that is laid out again, done.
fn main() {
    let mut s = [0u64; HEADER_WORDS + RECORD_WORDS * 4];
    let before = begin(&mut s);
    let path = recorded_once(before, 1, None, Price(102));
    let first = path.first;
    io::write_all(1, b"path");
    number(first.0);
    io::write_all(1, b"\n");
    let prints = PrintSegment {
        prev: None,
        first,
        last: Price(96),
    };
    ask_and_commit(&mut s, prints);
    let _again = begin(&mut s);
    segment_once(
        &mut s,
        settings(),
        prints,
        [blank_elected(); 2],
        [blank_moved(); 3],
    );
}
