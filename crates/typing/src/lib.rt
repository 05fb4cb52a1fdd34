// Number 3 for a whole file: what it declares, then the goals of each procedure, as the definition `typing_ok` says.
#![tactic(auto)]

mod calls;
mod constructs;
mod stage;
mod steps;
mod walk;

pub use stage::typing_ok;
