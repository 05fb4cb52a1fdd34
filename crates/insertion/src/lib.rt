// The annotated file: the file's records with creates and removes between them, laid into lent memory, how many they are, and a copy of them.
#![tactic(auto)]

mod bodies;
mod placed;
mod points;
mod procedures;
mod starts;
mod step;
mod walk;
mod wanted;
mod whole;

pub use whole::{blank_laid, lay_annotated, write};

// Where the walk stands: the next record to lay, and the point of the next goal. It is lent on by one word, so that a level of the walk takes little of the
// stack.
#[derive(Clone, Copy)]
pub struct Cursor {
    pub next: usize,
    pub point: usize,
}
