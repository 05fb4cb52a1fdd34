// The tables that the stages share. The file's table has a window for each procedure, behind the places where the windows start; the rows say of
// each record what its goal does.
#![tactic(auto)]

mod blank;
mod reaches;
mod rows;
mod starts;
mod window;

pub use blank::{blank_file_table, blank_rows};
use language::format::{MAX_PROCEDURES, MAX_RECORDS};
pub use reaches::reach_all;
pub use rows::{
    access_at, bears_at, ends_at, gives_at, marked, needs_at, put_access, put_effect, reads_at,
};
use sets::Set;
pub use starts::{body_of, start_of};
pub use window::{edges, home, reach, set_at, word_at};

// Words of a row, and of the rows of 4,096 records.
pub const ROW: usize = 6;

pub const ROWS: usize = ROW * MAX_RECORDS;

// The words of a row: what the goal reads, gives, needs, bears and ends, and a mark.
pub const READS: usize = 0;

pub const GIVES: usize = 1;

pub const NEEDS: usize = 2;

pub const BEARS: usize = 3;

pub const ENDS: usize = 4;

pub const MARK: usize = 5;

// The first words of a window: how many variables and regions the procedure has, its first goal, its in and out variables, its born, dead and
// kept regions, its input and output regions, and its first variable's record.
pub const VARIABLES: usize = 0;

pub const REGIONS: usize = 1;

pub const BODY: usize = 2;

pub const INS: usize = 3;

pub const OUTS: usize = 4;

pub const BORN: usize = 5;

pub const DEAD: usize = 6;

pub const KEPT: usize = 7;

pub const PASSED: usize = 8;

pub const FIRST: usize = 9;

// Behind them two words for each variable and one for each region: variable x has its region at 2 * x + HOMES and its reach at 2 * x + REACHES, and
// region r, where there are n variables, its first edge at 2 * n + r + EDGES.
pub const HEAD: usize = 10;

pub const HOMES: usize = 8;

pub const REACHES: usize = 9;

pub const EDGES: usize = 9;

// Words of the file's table: for each procedure where its window starts and the window's first words; two words for each record.
pub const TABLE: usize = (1 + HEAD) * MAX_PROCEDURES + 2 * MAX_RECORDS;

// What a goal reads, what it gives a value, and whether it gives no variable twice. The two sets mean the same whether it does or not, so no Option.
#[derive(Clone, Copy)]
pub struct Access {
    pub reads: Set,
    pub gives: Set,
    pub once: bool,
}

// What a step does to regions: those that it needs held, those that it bears, those that it ends, and whether "an image of a dead or born one is
// no other region's image". The three sets mean the same whether it is or not, so no Option.
#[derive(Clone, Copy)]
pub struct Effect {
    pub needs: Set,
    pub bears: Set,
    pub ends: Set,
    pub unshared: bool,
}
