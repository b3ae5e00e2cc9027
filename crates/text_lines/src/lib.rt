// A text cut into lines: where the next one ends, and where the k-th one stands. Nothing is copied: a line is two places of the text.
#![tactic(auto)]

ghost use Rattle.std.specs.Prelude.{◌≤◌, ◌<◌, ◌≡◌, ◌∷◌, ◌==◌, position, length, drop};
ghost use Rattle.text_lines.specs.Lines.{lines_of, line_at, between};

// Where a line ends and where the one behind it begins: the line feed, if there is one, lies between.
#[derive(Clone, Copy)]
pub struct Cut {
    pub end: usize,
    pub next: usize,
}

// Where a line stands.
#[derive(Clone, Copy)]
pub struct Line {
    pub start: usize,
    pub end: usize,
}

// The place of the first line feed.
fn line_feed(text: &[u8]) -> Option<usize>
    ensures { result ≡ position (λ b. b == 10) text.now }
{
    text.iter().position(|b| *b == b'\n')
}

// Cuts off the line that begins at a place.
pub fn next_line(text: &[u8], at: usize) -> Cut
    requires { at < length text.now }
    ensures text_value { lines_of (drop at text.now) ≡ between text.now at result.end ∷ lines_of (drop result.next text.now) }
    ensures at_le_end { (at ≤ result.end) × (result.end ≤ result.next) × (result.next ≤ length text.now) × (at < result.next) }
{
    match line_feed(&text[at..]) {
        Some(k) => Cut {
            end: at + k,
            next: at + k + 1,
        },
        None => Cut {
            end: text.len(),
            next: text.len(),
        },
    }
}

// Where the k-th line stands, counted from 0; an empty place at the end where there is none.
pub fn line_at(text: &[u8], k: u64) -> Line
    ensures end_value { between text.now result.start result.end ≡ line_at k text.now }
    ensures start_le_end { (result.start ≤ result.end) × (result.end ≤ length text.now) }
{
    let mut at = 0;
    for i in 0..k {
        if at == text.len() {
            break;
        }
        at = next_line(text, at).next;
    }
    if at == text.len() {
        return Line { start: at, end: at };
    }
    let cut = next_line(text, at);
    Line {
        start: at,
        end: cut.end,
    }
}
