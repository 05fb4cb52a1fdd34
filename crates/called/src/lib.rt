// Number 17: "a procedure, other than the entry, that no chain of calls from the entry reaches".
#![tactic(auto)]

mod finding;
mod linking;
mod stage;

pub use stage::all_reached;
