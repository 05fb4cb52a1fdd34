// The runner: the goals of an accepted file carried out in lent words, step by step as the machine on lists of words does it (word_machine).
#![tactic(auto)]

mod arms;
mod calls;
mod cells;
mod entries;
mod goals;
mod heaps;
mod opened;
mod places;
mod runs;
mod steps;
mod tries;

pub use calls::{settle, size_of};
pub use entries::{LOG_WORDS, free_log};
pub use goals::successor;
pub use heaps::{change_heap, changes_heap};
use language::{Ending, Stop};
use memory::Heap;
pub use opened::{SAVED_WORDS, else_goal, save_frame, step_in, take_back_all, then_goal};
pub use runs::{first_state, run_words};
pub use steps::{go, onward};

// What a run keeps beside the lent words and the heap: the newest frame's number and the place of its first word, its next goal's record, and how
// many numbers are printed.
#[derive(Clone, Copy)]
pub struct State {
    pub top: u32,
    pub at: usize,
    pub goal: usize,
    pub printed: usize,
}

// What a step comes to that doesn't stop the run. A try's is told, not done: the condition runs by itself. No Option: a None wouldn't say "a try".
#[derive(Clone, Copy)]
pub enum Step {
    Went(State),
    Tries,
}

// What a step in an open condition comes to that doesn't stop the run: the heap, the next goal's record and how many entries are logged; or a test
// that fails. No Option: a None wouldn't say "fails".
#[derive(Clone, Copy)]
pub enum ConditionStep {
    On(Heap, usize, usize),
    Fails,
}

// What a try comes to: the heap, the goal after its condition and how many steps are left.
#[derive(Clone, Copy)]
pub struct TryDone {
    pub heap: Heap,
    pub goal: usize,
    pub left: usize,
}

// What stops the run in a condition, and how many steps are left.
#[derive(Clone, Copy)]
pub struct TryStopped {
    pub stop: Stop,
    pub left: usize,
}

// "It returns the number and steps done"; the printed numbers stand at the front of the words lent for them.
#[derive(Clone, Copy)]
pub struct Outcome {
    pub ending: Ending,
    pub steps: usize,
    pub printed: usize,
}
