// What a job held: the accepted file's run, step by step, with the cells, regions and frames held after each.
#![tactic(auto)]

mod advancing;
mod beginning;
mod counting;
mod moving;
mod noting;
mod text;
mod trying;
mod turning;
mod walking;

pub use advancing::advance;
pub use beginning::{begin, put_entry};
use language::Ending;
use machine::State;
use memory::Heap;
pub use text::LINE_BYTES;

// How many cells and regions are held.
#[derive(Clone, Copy)]
pub struct Counts {
    pub cells: u32,
    pub regions: u32,
}

// How many cells, regions and frames are held.
#[derive(Clone, Copy, PartialEq, Eq)]
pub struct Held {
    pub cells: u64,
    pub regions: u64,
    pub frames: u64,
}

// A line of the profile: what is held after a step, and the record of the goal that the step carried out.
#[derive(Clone, Copy)]
pub struct Line {
    pub step: u64,
    pub held: Held,
    pub goal: u64,
}

// What a step outside conditions comes to that doesn't stop the run. A try's is told, not done. No Option: a None wouldn't say "a try".
#[derive(Clone, Copy)]
pub enum Turn {
    On(State, Heap),
    Tries,
}

// An open condition (C-20): the record of its try, 0 outside conditions; how many entries are logged; the counts without what the condition removed, and
// those at the try.
#[derive(Clone, Copy)]
pub struct Open {
    pub at: usize,
    pub logged: usize,
    pub left: Counts,
    pub before: Counts,
}

// Where a run stands after `done` steps, beside the lent words.
#[derive(Clone, Copy)]
pub struct Point {
    pub state: State,
    pub heap: Heap,
    pub counts: Counts,
    pub done: usize,
    pub condition: Open,
}

// The bytes of a part, and where the run stands behind it; or the last part, how the run ended, and after how many steps. Both ways have bytes, so it is
// no Result.
#[derive(Clone, Copy)]
pub enum Part {
    More(usize, Point),
    Last(usize, Ending, usize),
}
