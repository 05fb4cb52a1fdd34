// Fills the file's table: the window of every procedure, once for the file. Number 7 for every program comes with it.
#![tactic(auto)]

mod reaching;
mod sets_of;
mod sorting;
mod stage;
mod writing;

use sets::Set;
pub use stage::list_procedures;

// A procedure's in and out variables, its input and output regions, its regions by class, and its input and output regions together.
#[derive(Clone, Copy)]
pub struct Classes {
    pub ins: Set,
    pub outs: Set,
    pub inputs: Set,
    pub outputs: Set,
    pub born: Set,
    pub dead: Set,
    pub kept: Set,
    pub passed: Set,
}

// How many variables and regions a procedure has, its first goal and its first variable.
#[derive(Clone, Copy)]
pub struct Counts {
    pub variables: usize,
    pub regions: usize,
    pub body: usize,
    pub first: usize,
}

// How many words a procedure's window has, and whether its classes are right. The window is there either way: this is no Option.
#[derive(Clone, Copy)]
pub struct Listed {
    pub size: usize,
    pub right: bool,
}
