// A line that draws a stop along prices, as the host keeps it and as a panel draws it from the preview, side by side.
use session_text::printing;
use word_groups::{first_words, rest};
use yubtomiq::{yubtomiq_calculate_trailing_stop_price, yubtomiq_trailed};

// The terms that the host keeps after a price. Those of an unknown side stay, as the call is refused.
fn trailed(terms: &[u64; 4], price: u64) -> [u64; 4] {
    let mut after = *terms;
    yubtomiq_trailed(terms, price, &mut after);
    after
}

// The terms that a panel draws after a price: an empty preview means that they stay.
fn previewed(terms: &[u64; 4], price: u64) -> [u64; 4] {
    let mut next = [0u64; 3];
    yubtomiq_calculate_trailing_stop_price(
        terms[0], terms[1], terms[3], terms[2], price, &mut next,
    );
    if next[0] == 0 {
        return *terms;
    }
    [terms[0], next[1], next[2], terms[3]]
}

// The stop and the watermark of terms.
fn shown(name: &[u8], terms: &[u64; 4]) {
    printing::text(name);
    printing::number(terms[1]);
    printing::text(b" ");
    printing::number(terms[2]);
}

// Prints each price, and behind it what is kept and what is drawn after it.
pub fn run(n: &[u64]) {
    let prices = rest(n, 4);
    let mut kept = first_words(n);
    let mut drawn = first_words(n);
    for (i, price) in prices.iter().enumerate() {
        kept = trailed(&kept, *price);
        drawn = previewed(&drawn, *price);
        if i > 0 {
            printing::text(b" | ");
        }
        printing::number(*price);
        shown(b": kept ", &kept);
        shown(b", drawn ", &drawn);
    }
}
