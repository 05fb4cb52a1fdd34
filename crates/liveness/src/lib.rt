// Live variables at every point of a procedure's goals, in a table that a later walk reads in its own order; and number 7 at its steps.
#![tactic(auto)]

mod carried;
mod classes;
mod step;
mod table;
mod walk;
mod wants;
mod whole;

pub use classes::call_classes_ok;
use language::format::{MAX_RECORDS, PLACES};
use sets::Set;
pub use table::{after_at, before_at, blank_points};
pub use whole::list_live;

// Two words a point, one for each goal.
pub const POINTS: usize = 2 * MAX_RECORDS;

// Words of what is wanted: the reach of each variable, by its number, then the kept regions.
pub const WANTS_KEPT: usize = PLACES;

pub const WANTS: usize = WANTS_KEPT + 1;

// What is live before the goals whose points were written, the place of the first of them in the table, and whether their steps keep number 7.
#[derive(Clone, Copy)]
pub struct Filled {
    pub live: Set,
    pub start: usize,
    pub classes: bool,
}
