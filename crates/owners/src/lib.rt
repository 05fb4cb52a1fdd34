// The procedure that each record belongs to, and tests of a file's goals as loops over its records.
#![tactic(auto)]

mod pass;
mod plain;
mod words;

pub use pass::{hand_to, list_owners};
pub use plain::is_unannotated;
