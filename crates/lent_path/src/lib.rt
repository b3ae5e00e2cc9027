// The print path as one small state that is lent and altered by its three calls, each thin over a core by value (crate
// print_path). The forms are the specification's.
#![tactic(auto)]

ghost use Rattle.std.specs.Prelude.{◌≡◌};
ghost use Rattle.book.specs.Path.{recorded, closed, take};

use book::{PrintPath, PrintSegment};
use pricelevel::Price;
use print_path::{closed, recorded, taken};

// Records a print, given how many stops are pending: a sweep's first print opens the path, if there are any.
pub fn record_print(path: &mut PrintPath, pending: u64, prev: Option<Price>, price: Price)
    ensures { path.new ≡ recorded pending prev price path.old }
{
    *path = recorded(*path, pending, prev, price);
}

// Takes the path's segment, up to the last trade, and closes the path.
pub fn take_path(path: &mut PrintPath, trade: Option<Price>) -> Option<PrintSegment>
    ensures result_value { result ≡ (take path.old trade).segment }
    ensures path_after { path.new ≡ (take path.old trade).path }
{
    let t = taken(*path, trade);
    *path = t.path;
    t.segment
}

// Closes the path.
pub fn reset_path(path: &mut PrintPath)
    ensures { path.new ≡ closed path.old }
{
    *path = closed(*path);
}
