// The picture of a walk, as lines of SVG: the prices as a line, each stop as a step line that moves where it ratchets,
// and each election as a circle with its turn. A unit is a tenth of a pixel.
#![tactic(auto)]

mod panel;
mod places;
mod steps;

pub use panel::{begin, finish, head, tail};
pub use steps::{Mark, NO_MARK, elected, moved, remaining};
