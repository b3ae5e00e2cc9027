// The table of commands, a row for each: its keyword and its signature.
ghost use Rattle.std.specs.Prelude.{◌≤◌, length};
ghost use Rattle.text_lines.specs.Lines.{lines_of};
ghost use Rattle.sheet_commands.specs.Commands.{Told, command_from};
ghost use Rattle.sheet_commands.specs.Grammar.{grammar};

use crate::Read;
use crate::rows::by_rows;

// The command by the line's first word, which stands between two places.
#[tactic(auto, unfolding(crate::specs::Grammar::grammar))]
pub fn by_grammar(line: &[u8], start: usize, end: usize, values: &mut [u64]) -> Read
    requires { (start ≤ end) × (end ≤ length line.now) }
    ensures { Told (command_from (lines_of grammar) 1 line.now start end) values.old values.new result }
{
    by_rows(
        b"records n\ntick n\ncollar o\nnamespace u\nkill b\nlast o\nsell innnnH\nbuy innnnH\nqty in\nprice in\nboth inn\nreplace isnn\ncancel i\ncancel-holder h\nclear\nprints p\nwalk\nends\ncompare\nturns\nchild c\npass\nladder p\nlist\nholder h\ntotals\nask\ncommit\n",
        line,
        start,
        end,
        values,
    )
}
