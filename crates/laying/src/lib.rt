// Records laid into a lent slice as far as it has room: creates and removes, records of the file as they are, and records whose words lead to what was laid behind them.
#![tactic(auto)]

mod copies;
mod heads;
mod marks;
mod place;

pub use copies::{lay_chain, lay_record};
pub use heads::{store_arm, store_if, store_procedure, store_switch, store_try};
pub use marks::{follows, lay_marks};
pub use place::{refer, span, store};
