// The runner's memory: cells of 8 lent words and regions of 2. Places are used again; the free ones are linked in the words themselves.
#![tactic(auto)]

mod cells;
mod moving;
mod places;
mod pools;
mod undoing;
mod words;

pub use cells::{cell_word, hang_cell};
pub use moving::move_words;
pub use places::{create, empty, remove, take_cell};
pub use pools::room;
pub use undoing::take_back;
pub use words::{put, word};

// "Lent 32-bit words hold: 8 a cell, 2 a region".
pub const CELL_WORDS: usize = 8;

pub const REGION_WORDS: usize = 2;

// The word of a cell where its arguments start, behind the functor, and the one that leads on, to the next cell of its region or to the next free one.
pub const CELL_ARGUMENTS: usize = 1;

pub const CELL_NEXT: usize = 5;

// The word of a region that names its last cell; word 0 leads to its first one, or to the next free region.
pub const REGION_LAST: usize = 1;

// "More than 65,535 of a sort count as 65,535".
const MOST: u32 = 65535;

// A term's word is the place of its cell or, above all places, a constant: this number and its functor.
pub const CONSTANTS: u32 = 65536;

// An entry of an open condition's log (C-20) tells of a region whether a cell was built in it, it was made or it was removed: numbers, no enum, since a log is
// words of fixed memory, and `undone` and `freed` speak of its words.
pub const ENTRY_BUILT: u32 = 0;

pub const ENTRY_MADE: u32 = 1;

pub const ENTRY_REMOVED: u32 = 2;

// The free places of a sort: a chain from `head` that ends at `top`, and the places from `top` on, never used yet. There are `limit` places.
#[derive(Clone, Copy)]
pub struct Pool {
    pub head: u32,
    pub top: u32,
    pub limit: u32,
}

#[derive(Clone, Copy)]
pub struct Heap {
    pub cells: Pool,
    pub regions: Pool,
}

// What a cell holds: its functor's number and its arguments' words. Words past the arity mean nothing.
#[derive(Clone, Copy)]
pub struct Contents {
    pub functor: u32,
    pub a: u32,
    pub b: u32,
    pub c: u32,
    pub d: u32,
}
