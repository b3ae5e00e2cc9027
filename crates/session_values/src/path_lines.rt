// Lines that take the print path alone.
use session_text::lent::LENT;
use session_text::names::Name;
use session_text::printing;
use word_groups::{first_words, rest, word};
use yubtomiq::{yubtomiq_record_print, yubtomiq_reset_path, yubtomiq_take_path};

fn record(path: &mut [u64; 4], n: &[u64]) {
    let r = yubtomiq_record_print(path, word(n, 0), &first_words(rest(n, 1)), word(n, 3));
    printing::number(r);
}

fn take(path: &mut [u64; 4], n: &[u64]) {
    let mut answer = [LENT; 5];
    let r = yubtomiq_take_path(path, &first_words(n), &mut answer);
    printing::answer(r, &answer);
}

fn reset(path: &mut [u64; 4]) {
    let r = yubtomiq_reset_path(path);
    printing::number(r);
}

pub fn run(call: Name, path: &mut [u64; 4], n: &[u64]) {
    match call {
        Name::Record => record(path, n),
        Name::Take => take(path, n),
        _ => reset(path),
    }
    printing::path(path);
}
