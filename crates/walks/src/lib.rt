// The one walk over goals, whatever it carries: its laws (specs/Walk, specs/Along), which goals are steps, and words for what it carries.
#![tactic(auto)]

mod carried;
mod steps;

pub use carried::{WALK_WORDS, blank_walk};
pub use steps::is_step;
