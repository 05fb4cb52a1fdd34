// Number 3 for what a file declares: its types and functors, and each procedure's variables, regions and edges, as the definitions `types_ok`
// and `signature_ok` say; and the two tables that the goals are tested by.
#![tactic(auto)]

mod edges;
mod listing;
mod names;
mod places;
mod signatures;
mod types;

pub use listing::{list_file, list_own};
pub use names::{functor, has_type, parameter, procedure, region, variable};
pub use places::{FILE_PLACES, OWN_PLACES};
pub use signatures::{counts_ok, signature_ok};
pub use types::types_ok;
