// Lines that take values alone, or the print path.
#![tactic(auto)]

use session_text::names::Name;

mod draw_lines;
mod path_lines;
mod term_lines;

pub fn run(call: Name, path: &mut [u64; 4], n: &[u64]) {
    if call == Name::Draw {
        draw_lines::run(n);
        return;
    }
    if call < Name::Record {
        term_lines::run(call, n);
    } else {
        path_lines::run(call, path, n);
    }
}
