// Lines that take values alone: terms, limit, collar and child.
use session_text::lent::LENT;
use session_text::names::Name;
use session_text::printing;
use word_groups::{first_words, rest, word};
use yubtomiq::{
    yubtomiq_calculate_trailing_stop_price, yubtomiq_check_collar, yubtomiq_check_tick_size,
    yubtomiq_elected_by, yubtomiq_inconsistency, yubtomiq_limit_price,
    yubtomiq_stop_trigger_order_id, yubtomiq_trailed,
};

fn trailed(n: &[u64]) {
    let mut answer = [LENT; 4];
    let r = yubtomiq_trailed(&first_words(n), word(n, 4), &mut answer);
    printing::answer(r, &answer);
}

fn preview(n: &[u64]) {
    let mut answer = [LENT; 3];
    let r = yubtomiq_calculate_trailing_stop_price(
        word(n, 0),
        word(n, 1),
        word(n, 2),
        word(n, 3),
        word(n, 4),
        &mut answer,
    );
    printing::answer(r, &answer);
}

fn limit(n: &[u64]) {
    let mut answer = [LENT; 3];
    let r = yubtomiq_limit_price(word(n, 0), word(n, 1), word(n, 2), &mut answer);
    printing::answer(r, &answer);
}

fn child(n: &[u64]) {
    let mut answer = [LENT; 3];
    let r = yubtomiq_stop_trigger_order_id(&first_words(n), &first_words(rest(n, 2)), &mut answer);
    printing::answer(r, &answer);
}

// A call that returns a number alone.
fn returned(call: Name, n: &[u64]) -> u64 {
    match call {
        Name::ElectedBy => yubtomiq_elected_by(&first_words(n), word(n, 4)),
        Name::Inconsistency => yubtomiq_inconsistency(&first_words(n)),
        Name::Collar => yubtomiq_check_collar(word(n, 0)),
        _ => yubtomiq_check_tick_size(word(n, 0), word(n, 1)),
    }
}

pub fn run(call: Name, n: &[u64]) {
    match call {
        Name::Trailed => trailed(n),
        Name::Preview => preview(n),
        Name::Limit => limit(n),
        Name::Child => child(n),
        _ => printing::number(returned(call, n)),
    }
}
