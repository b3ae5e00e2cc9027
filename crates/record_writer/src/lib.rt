// The words of a stop, and a record written whole: a stop's words with its links, or a free record's.
#![tactic(auto)]

ghost use Rattle.std.specs.Prelude.{◌≡◌, ◌-◌};
ghost use Rattle.std.proofs.lemmas.List.Edits.{sets};
ghost use Rattle.book.specs.Book.{vacant, held};
ghost use Rattle.book.specs.Entries.{stop_words};
ghost use Rattle.book.specs.Words.{cell, data_words, with_links};
ghost use Rattle.chains.specs.Records.{Record};

use book::{RECORD_WORDS, StopEntry, StopWords};
use records::write_record;

// The words of a free record, which another, or 0, follows in the free chain.
fn free_words(next: u64) -> [u64; RECORD_WORDS]
    ensures { result ≡ with_links (data_words vacant) next 0 }
{
    [0, 0, 0, 0, 0, 0, 0, 0, 0, next, 0, 0, 0, 0, 0]
}

// The words of a stop where it is answered or listed.
pub fn stop_words(t: StopEntry) -> StopWords
    ensures { result ≡ stop_words t }
{
    let id = t.id;
    let kind = id.kind;
    let terms = t.terms;
    let side = terms.side;
    let holder = t.holder;
    [
        kind.number() as u64,
        id.high,
        id.low,
        side.number() as u64,
        terms.stop.0,
        terms.watermark.0,
        terms.trail,
        t.quantity.0,
        t.seq.0,
        holder.0,
        holder.1,
        holder.2,
        holder.3,
    ]
}

// The words of a record that holds a stop and is linked to none.
fn entry_words(t: StopEntry) -> [u64; RECORD_WORDS]
    ensures { result ≡ with_links (data_words (held t)) 0 0 }
{
    let w = stop_words(t);
    [
        w[0], w[1], w[2], w[3], w[4], w[5], w[6], w[7], w[8], 0, 0, w[9], w[10], w[11], w[12],
    ]
}

// Writes record i as a free one.
pub fn write_free(s: &mut [u64], n: u64, i: u64, next: u64)
    requires { Record n s.old i }
    ensures { s.new ≡ sets s.old (cell i 0) (with_links (data_words vacant) next 0) }
{
    let words = free_words(next);
    write_record(s, n, i, &words);
}

// Writes a stop to record i, which is then linked to none.
pub fn write_entry(s: &mut [u64], n: u64, i: u64, t: StopEntry)
    requires { Record n s.old i }
    ensures { s.new ≡ sets s.old (cell i 0) (with_links (data_words (held t)) 0 0) }
{
    let words = entry_words(t);
    write_record(s, n, i, &words);
}
