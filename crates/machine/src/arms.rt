// Switches: "a switch takes the arm of X's functor".
ghost use Rattle.std.specs.Prelude.{true, ◌≡◌, ℕ, ◌+◌, ◌*◌, ◌≤◌, ◌<◌, length, get_or};
ghost use Rattle.language.specs.File.{arms, word, record_count};
ghost use Rattle.language.specs.Format.{record_bytes, max_variables, goal_x};
ghost use Rattle.memory.specs.Memory.{cell_words};
ghost use Rattle.chains.specs.Formed.{Formed, Stands};
ghost use Rattle.chains.specs.Shapes.{IsSwitch};
ghost use Rattle.word_machine.specs.Machine.{frame_words};
ghost use Rattle.machine.specs.GoalWords.{LowIfAny, functor_in, arm_for, arm_values, term_values};
ghost use Rattle.machine.specs.Cells.{whole_cell};

use frames::{arm_of, give, value};
use language::format::{GOAL_X, MAX_ARITY, SWITCH_ARMS, TERM_ARGUMENTS};
use memory::{CELL_ARGUMENTS, CELL_WORDS, CONSTANTS, word};
use records::word_in;

// A word of a cell; where the cell may not be there whole, 0 past the end.
fn word_at<const WHOLE: bool>(cells: &[u32], at: usize) -> u32
    requires { WHOLE ≡ true → at < length cells.now }
    ensures { result ≡ get_or cells.now at 0 }
{
    if WHOLE { cells[at] } else { word(cells, at) }
}

// ".. and the arm's arguments get the cell's values", up to the first that is numbered 0: the arm at record j. Where it isn't said that the cell is there
// whole, a part of it may lie behind the end: no value of an accepted file's run is such a cell.
fn arm_values<const WHOLE: bool>(
    file: &[u8],
    j: usize,
    cell: u32,
    at: usize,
    cells: &[u32],
    frames: &mut [u32],
)
    requires record_bytes_in_bounds { (record_bytes * j + record_bytes ≤ length file.now) × (at + frame_words ≤ length frames.old) }
    requires low_if_any { LowIfAny file.now j }
    requires whole { WHOLE ≡ true → cell_words * cell + cell_words ≤ length cells.now }
    ensures { frames.new ≡ arm_values file.now j cell at cells.now frames.old }
{
    let p = CELL_WORDS * (cell as usize);
    for n in 0..MAX_ARITY {
        let x = word_in(file, j, TERM_ARGUMENTS + n);
        if x == 0 {
            return;
        }
        let v = word_at::<WHOLE>(cells, p + CELL_ARGUMENTS + n);
        give(&mut frames[..], at, x, v);
    }
}

// Whether a term's word is the place of a cell that is there whole. How many words are lent is asked first: where that is a known number, as in the
// runner, one test is left.
fn whole_cell(cells: &[u32], term: u32) -> bool
    ensures { result ≡ whole_cell cells.now term }
{
    if cells.len() < CELL_WORDS * (term as usize) + CELL_WORDS {
        return false;
    }
    term < CONSTANTS
}

// The functor of a term's word: of the cell, or of the constant.
fn functor_of(cells: &[u32], term: u32) -> u32
    ensures { result ≡ functor_in cells.now term }
{
    if term < CONSTANTS {
        return word(cells, CELL_WORDS * (term as usize));
    }
    term - CONSTANTS
}

// Returns the arm's record. A constant has no values: the frames are as they were. A run's own switches and those in its conditions (C-20) have one of their
// own each, with one caller, so that the compiler lays the first into the run's loop. Conditions are short: they don't ask whether a cell is there whole.
pub fn switch_arm<const IN_RUN: bool>(
    file: &[u8],
    i: usize,
    at: usize,
    cells: &[u32],
    frames: &mut [u32],
) -> usize
    requires formed { Formed file.now }
    requires i_bound { (i < record_count file.now) × IsSwitch file.now i × (at + frame_words ≤ length frames.old) }
    requires goal_x_bound { (word file.now i goal_x ≤ max_variables) × ((j : ℕ) → Stands file.now arms j → LowIfAny file.now j) }
    ensures value { result ≡ arm_for file.now i at cells.now frames.old }
    ensures upper_bound { result < record_count file.now }
    ensures frames_after { frames.new ≡ term_values file.now result (get_or frames.old (at + word file.now i goal_x) 0) at
        cells.now frames.old }
{
    let term = value(&frames[..], at, word_in(file, i, GOAL_X));
    let first = word_in(file, i, SWITCH_ARMS);
    if IN_RUN && whole_cell(cells, term) {
        let j = arm_of(file, first, cells[CELL_WORDS * (term as usize)]);
        arm_values::<true>(file, j, term, at, cells, &mut frames[..]);
        return j;
    }
    let j = arm_of(file, first, functor_of(cells, term));
    if CONSTANTS <= term {
        return j;
    }
    arm_values::<false>(file, j, term, at, cells, &mut frames[..]);
    j
}
