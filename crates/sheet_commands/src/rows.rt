// The rows of a table of commands.
ghost use Rattle.std.specs.Prelude.{◌≤◌, ◌≡◌, length};
ghost use Rattle.text_lines.specs.Lines.{lines_of};
ghost use Rattle.text_words.specs.Words.{same_text};
ghost use Rattle.sheet_signatures.specs.Signatures.{arguments_from};
ghost use Rattle.sheet_commands.specs.Commands.{Told, command, keyword_of, signature_of, command_from};

use crate::Read;
use sheet_signatures::read_arguments;
use text_lines::next_line;
use text_words::{next_word, same};

// Whether a word is the keyword of a row.
#[tactic(auto, unfolding(crate::specs::Commands::keyword_of))]
fn is_keyword(word: &[u8], row: &[u8]) -> bool
    ensures { result ≡ same_text word.now (keyword_of row.now) }
{
    let w = next_word(row, 0);
    let start = w.start;
    let end = w.end;
    same(word, &row[start..end])
}

// The command of a row, whose arguments begin at a place of the line.
#[tactic(auto, unfolding(crate::specs::Commands::signature_of))]
fn by_row(kind: u64, row: &[u8], line: &[u8], at: usize, values: &mut [u64]) -> Read
    requires { (at ≤ length line.now) × (length row.now ≤ 4096) }
    ensures { Told (command kind (arguments_from (signature_of row.now) line.now at)) values.old values.new result }
{
    let keyword = next_word(row, 0);
    let signature = next_word(row, keyword.end);
    let start = signature.start;
    let end = signature.end;
    let a = read_arguments(&row[start..end], line, at, values);
    Read {
        kind: kind,
        fault: a.fault,
        column: a.column,
    }
}

// The command by the rows of a table and the line's first word, which stands between two places.
pub fn by_rows(table: &[u8], line: &[u8], start: usize, end: usize, values: &mut [u64]) -> Read
    requires { (length table.now ≤ 4096) × ((start ≤ end) × (end ≤ length line.now)) }
    ensures { Told (command_from (lines_of table.now) 1 line.now start end) values.old values.new result }
{
    let mut at: usize = 0;
    let mut kind: u64 = 1;
    // By place: a row is two places of the table, and the next begins where `next_line` says.
    while at < table.len() {
        let cut = next_line(table, at);
        let stop = cut.end;
        if is_keyword(&line[start..end], &table[at..stop]) {
            return by_row(kind, &table[at..stop], line, end, values);
        }
        at = cut.next;
        kind += 1;
    }
    Read {
        kind: 0,
        fault: 10,
        column: start + 1,
    }
}
