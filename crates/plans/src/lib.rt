// What a run reads beside the file, worked out once before the first step.
#![tactic(auto)]

mod arguments;
mod callees;
mod fill;
mod images;
mod joining;
mod onward;
mod sides;

pub use fill::fill_plan;
use language::format::{MAX_PROCEDURES, MAX_RECORDS, MAX_REGIONS};
pub use onward::onto;

// The plan: four words for each of 4,096 records, sort by sort (specs/Plan.antt). These are the places where the sorts after the first start.
pub const IN_LINKS: usize = MAX_RECORDS;

pub const OUT_LINKS: usize = 2 * MAX_RECORDS;

pub const SIDES: usize = 3 * MAX_RECORDS;

pub const PLAN: usize = 4 * MAX_RECORDS;

// A link is this many times the record that it leads to, and what an argument passes: the callee's variable, and this many times the caller's.
pub const LINK_UNIT: usize = 65536;

pub const GIVEN_UNIT: usize = 256;

// A byte for each call and region of its callee, at most 64 for each of 4,096 records. Place 0 has none.
pub const IMAGES: usize = MAX_REGIONS * MAX_RECORDS + 1;

// What a call reads of its callee: four words for each procedure.
pub const CALLEE_ROW: usize = 4;

pub const CALLEES: usize = CALLEE_ROW * MAX_PROCEDURES;

pub const CALLEE_BODY: usize = 0;

pub const CALLEE_SIZE: usize = 1;

pub const CALLEE_HELD: usize = 2;

pub const CALLEE_BORN: usize = 3;
