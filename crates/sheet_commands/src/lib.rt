// A worksheet's line as a command: its number, and the values of its arguments.
#![tactic(auto)]

mod grammar;
mod rows;

ghost use Rattle.sheet_commands.specs.Commands.{Told, command_of};

use grammar::by_grammar;
pub use text_numbers::put_numbers;
use text_words::next_word;

// A command's number, or 0; a fault, or 0, and its column.
#[derive(Clone, Copy)]
pub struct Read {
    pub kind: u64,
    pub fault: u64,
    pub column: usize,
}

// The command that a line is; its values are put into a list, of which 16 places are enough for any command.
#[tactic(auto, unfolding(crate::specs::Commands::command_of))]
pub fn read_command(line: &[u8], values: &mut [u64]) -> Read
    ensures { Told (command_of line.now) values.old values.new result }
{
    let w = next_word(line, 0);
    if w.start == w.end {
        return Read {
            kind: 0,
            fault: 0,
            column: 0,
        };
    }
    by_grammar(line, w.start, w.end, values)
}
