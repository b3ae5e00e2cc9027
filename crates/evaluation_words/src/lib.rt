// The words of an evaluation: its settings, and what a segment, a walk or a pass answers.
#![tactic(auto)]

ghost use Rattle.std.specs.Prelude.{◌≡◌};
ghost use Rattle.host_words.specs.Arguments.{protection_of, settings_of};

use book::Settings;
use stop_protection::StopProtection;
use uuid_v5::Uuid;

// ---------------------------------------------------------------------
// Admission, change and settings

// A collar of 0 is none.
pub fn protection_of(collar: u64) -> Option<StopProtection>
    ensures { result ≡ protection_of collar }
{
    let made = StopProtection::try_new(collar);
    match made {
        Ok(protection) => Some(protection),
        Err(_) => None,
    }
}

// Kill switch, collar, namespace high, namespace low.
pub fn settings_of(w: &[u64; 4]) -> Settings
    ensures { result ≡ settings_of w.now }
{
    Settings {
        kill: w[0] != 0,
        protection: protection_of(w[1]),
        namespace: Uuid {
            high: w[2],
            low: w[3],
        },
    }
}

// ---------------------------------------------------------------------
// Answers
