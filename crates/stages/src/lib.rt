// The stages that all programs share, the lower number first.
#![tactic(auto)]

mod lowest;

pub use lowest::{check_classes, check_typing};
