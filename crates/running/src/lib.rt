// The runner's answer to any bytes: what it refuses, or a run in lent memory.
#![tactic(auto)]

mod accepted;
mod answer;
pub mod lent;

pub use accepted::{fill_tables, run_accepted};
pub use answer::run;
