// The call's mapping, what a step does to regions, and number 5, in one pass over the records.
#![tactic(auto)]

mod calls;
mod effects;
mod images;
mod pairs;
mod pass;
mod repeats;
mod single;
mod terms;

pub use calls::map_call;
pub use pass::regions_agree;
pub use repeats::{owner_of, repeats as call_repeats};
