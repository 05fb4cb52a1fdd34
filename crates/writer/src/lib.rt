// The writer of records into a lent slice, and the walk in written order that copies a file.
#![tactic(auto)]

mod put;
mod skip;
mod stage;
mod walk;

pub use put::{copy_record, link, put_record, put_word};
pub use skip::{behind, skip_chain, skip_record};
pub use stage::write_in_order;
pub use walk::{write_chain, write_record};
