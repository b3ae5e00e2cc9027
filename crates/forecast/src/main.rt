// The program `forecast` of document 01: reads a store, a price count and the prices from standard input, and
// writes what a walk along the prices elects.
#![tactic(auto)]

fn main() {
    forecast_lines::forecast_of(0);
}
