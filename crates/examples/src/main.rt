// Runs the examples of document 01 and the published vectors, a line each: what is asked, a colon, and the answer. The
// file stdout holds the answers as document 01 and the named sources give them.
#![tactic(auto)]

mod hashes;
mod print;
mod protection;
mod terms;

fn main() {
    terms::trails();
    terms::elections();
    terms::inconsistencies();
    terms::previews();
    protection::collars();
    protection::limits();
    protection::ticks();
    hashes::digests();
    hashes::uuids();
    hashes::children();
}
