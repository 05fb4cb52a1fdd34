// Constructs: "a construct makes one cell", one without arguments none.
ghost use Rattle.std.specs.Prelude.{true, ◌≡◌, ◌+◌, ◌*◌, ◌≤◌, ◌<◌, length, get_or, set};
ghost use Rattle.language.specs.File.{word};
ghost use Rattle.language.specs.Format.{record_bytes, max_records, max_variables, max_regions, goal_x};
ghost use Rattle.memory.specs.Memory.{cell_words};
ghost use Rattle.plans.specs.Plan.{sides_from};
ghost use Rattle.word_machine.specs.Machine.{frame_words};
ghost use Rattle.machine.specs.GoalWords.{Low, poured};
ghost use Rattle.machine.specs.Cells.{Makes, Constructs};

use frames::{give, region, store, value};
use language::format::{GOAL_X, MAX_ARITY, TERM_ARGUMENTS, TERM_FUNCTOR};
use memory::{CELL_ARGUMENTS, CELL_WORDS, CONSTANTS, Heap, hang_cell, put, take_cell};
use plans::{PLAN, SIDES};
use records::word_in;

// The first argument's word of a construct that has none.
const NO_ARGUMENT: usize = 0;

// A word of a cell is put there; where the cell may not be there whole, none past the end.
fn put_at<const WHOLE: bool>(cells: &mut [u32], at: usize, v: u32)
    requires { WHOLE ≡ true → at < length cells.old }
    ensures { cells.new ≡ set cells.old at v }
{
    if WHOLE {
        store(cells, at, v);
    } else {
        put(cells, at, v);
    }
}

// A cell gets the functor of the construct at record i and the values of its arguments, up to the first that is numbered 0. Where it isn't said that the
// cell is there whole, a part of it may lie behind the end: no heap gives such a cell.
fn fill<const WHOLE: bool>(
    file: &[u8],
    i: usize,
    at: usize,
    cell: u32,
    cells: &mut [u32],
    frames: &[u32],
)
    requires record_bytes_in_bounds { (record_bytes * i + record_bytes ≤ length file.now) × (at + frame_words ≤ length frames.now) }
    requires low { Low file.now i }
    requires whole { WHOLE ≡ true → cell_words * cell + cell_words ≤ length cells.old }
    ensures { cells.new ≡ poured file.now i at frames.now cell cells.old }
{
    let p = CELL_WORDS * (cell as usize);
    put_at::<WHOLE>(&mut cells[..], p, word_in(file, i, TERM_FUNCTOR) as u32);
    for n in 0..MAX_ARITY {
        let x = word_in(file, i, TERM_ARGUMENTS + n);
        if x == 0 {
            return;
        }
        let v = value(frames, at, x);
        put_at::<WHOLE>(&mut cells[..], p + CELL_ARGUMENTS + n, v);
    }
}

// The cell's words, whether it is there whole or not: a run asks, conditions don't.
fn fill_cell<const IN_RUN: bool>(
    file: &[u8],
    i: usize,
    at: usize,
    cell: u32,
    cells: &mut [u32],
    frames: &[u32],
)
    requires record_bytes_in_bounds { (record_bytes * i + record_bytes ≤ length file.now) × (at + frame_words ≤ length frames.now) }
    requires low { Low file.now i }
    ensures { cells.new ≡ poured file.now i at frames.now cell cells.old }
{
    if IN_RUN && CELL_WORDS * (cell as usize) + CELL_WORDS <= cells.len() {
        fill::<true>(file, i, at, cell, &mut cells[..], frames);
    } else {
        fill::<false>(file, i, at, cell, &mut cells[..], frames);
    }
}

// What a construct makes: with arguments a cell, in the region of X; without any a constant, "in the word itself", which takes no cell and touches
// no region.
fn make_term<const IN_RUN: bool>(
    file: &[u8],
    plan: &[usize; PLAN],
    i: usize,
    at: usize,
    heap: Heap,
    cells: &mut [u32],
    regions: &mut [u32],
    frames: &[u32],
) -> Option<(u32, Heap)>
    requires i_lt_max_records { (i < max_records) × (record_bytes * i + record_bytes ≤ length file.now) × (at + frame_words ≤ length frames.now) }
    requires low { Low file.now i × (get_or plan.now (sides_from + i) 0 ≤ max_regions) }
    ensures { Makes file.now plan.now i at heap cells.old regions.old frames.now
        result cells.new regions.new }
{
    if word_in(file, i, TERM_ARGUMENTS) == NO_ARGUMENT {
        let constant = CONSTANTS + (word_in(file, i, TERM_FUNCTOR) as u32);
        return Some((constant, heap));
    }
    let (cell, left) = take_cell(heap, &cells[..])?;
    fill_cell::<IN_RUN>(file, i, at, cell, &mut cells[..], frames);
    let home = region(frames, at, plan[SIDES + i]);
    let free = heap.cells;
    hang_cell(&mut cells[..], &mut regions[..], home, cell, free.limit);
    Some((cell, left))
}

// X gets what is made. A run's own constructs and those in its conditions (C-20) have one of their own each, with one caller, so that the compiler lays the
// first into the run's loop.
pub fn construct<const IN_RUN: bool>(
    file: &[u8],
    plan: &[usize; PLAN],
    i: usize,
    at: usize,
    heap: Heap,
    cells: &mut [u32],
    regions: &mut [u32],
    frames: &mut [u32],
) -> Option<(u32, Heap)>
    requires i_lt_max_records { (i < max_records) × (record_bytes * i + record_bytes ≤ length file.now) × (at + frame_words ≤ length frames.old) }
    requires goal_x_bound { (word file.now i goal_x ≤ max_variables) × Low file.now i × (get_or plan.now (sides_from + i) 0 ≤ max_regions) }
    ensures { Constructs file.now plan.now i at heap cells.old regions.old frames.old
        result cells.new regions.new frames.new }
{
    let (term, left) = make_term::<IN_RUN>(
        file,
        plan,
        i,
        at,
        heap,
        &mut cells[..],
        &mut regions[..],
        &frames[..],
    )?;
    give(&mut frames[..], at, word_in(file, i, GOAL_X), term);
    Some((term, left))
}
