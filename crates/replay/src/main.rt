// What the published Rust answers, call by call: the lines of the file stdin are run, and stdout holds the Rust's
// answers. oracle/replay.py made both from lines of the oracle, of which oracle/choose.py kept 2,333: 1,490 of the first
// 60,000 of seed 11, 429 of seed 12 and 414 of seed 13. 1,133 were chosen so that each of these occurs, on either side:
// every call, every refusal that the oracle gives, stops and prints at both ends of the price range, equal stops and
// equal watermarks among stops that trail or are elected, a price before that equals the first print, the kill switch,
// children that print again and elect, limits at 2^64 - 1, at 2^64 and above, stops and collars at the top, sequences
// near their end, and of each selector nothing, something and everything collected; the others are any.
#![tactic(auto)]

fn main() {
    session::session();
}
