// Fills the rows with what goals read and give.
#![tactic(auto)]

mod calls;
mod filling;
mod steps;

pub use filling::list_accesses;
