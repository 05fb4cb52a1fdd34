// Going through chains of records: their lengths, and words of records that may be missing.
#![tactic(auto)]

mod entries;
mod kinds;
mod lists;
mod words;

pub use entries::{entry, field};
pub use kinds::{goal, kind};
pub use lists::chain_length;
pub use words::{record_count, word};
