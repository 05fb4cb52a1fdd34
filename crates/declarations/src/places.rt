// The two tables that number 3 lends, and their places: one table for what the file declares, one for what the procedure at hand declares. A place has
// a record's number, 0 where there is none.

use language::format::{MAX_FUNCTORS, MAX_PROCEDURES, MAX_RECORDS, PLACES};

// The file's: at a record's number, for each variable the first in or out variable from there on, and for the first functor of a type with regions that
// functor; then the procedures; then the functors, MAX_FUNCTORS places a type.
pub const PROCEDURE_PLACES: usize = MAX_RECORDS;

pub const FUNCTOR_PLACES: usize = PROCEDURE_PLACES + MAX_PROCEDURES;

pub const FILE_PLACES: usize = FUNCTOR_PLACES + MAX_FUNCTORS * PLACES;

// The procedure's: its variables by number, then its regions by number.
pub const REGION_PLACES: usize = PLACES;

pub const OWN_PLACES: usize = REGION_PLACES + PLACES;
