// An open condition (C-20): its steps, and a test that fails. What it does to cells and regions is logged, the frame's words are saved.
ghost use Rattle.std.specs.Prelude.{◌≡◌, List, ℕ, ◌+◌, ◌*◌, ◌≤◌, ◌<◌, length, get_or};
ghost use Rattle.language.specs.File.{word, record_count};
ghost use Rattle.language.specs.Format.{record_bytes, max_records, try_then, try_else};
ghost use Rattle.chains.specs.Formed.{Formed};
ghost use Rattle.chains.specs.Shapes.{IsConstruct, IsCreate, IsRemove, IsSum, IsTest};
ghost use Rattle.memory.specs.Log.{stored, Is, undone};
ghost use Rattle.memory.specs.Moved.{moved};
ghost use Rattle.plans.specs.Plan.{Numbered, tables_in};
ghost use Rattle.word_machine.specs.Tables.{onto as ontoOf};
ghost use Rattle.word_machine.specs.Machine.{frame_words};
ghost use Rattle.machine.specs.Words.{FramePlaced};
ghost use Rattle.machine.specs.Entries.{Logs};
ghost use Rattle.machine.specs.Trying.{frame_numbers, saved_words, count_end, GoesIn};

use crate::arms::switch_arm;
use crate::cells::construct;
use crate::entries::{LOG_WORDS, note, undo_log};
use crate::goals::{assign, literal, passes, successor, sum};
use crate::places::make_region;
use crate::{ConditionStep, State};
use frames::{give, in_range, region, word_of};
use language::Stop;
use language::format::{
    ASSIGN, CONSTRUCT, CREATE, GOAL_X, KIND, LIFETIME_REGION, LITERAL, MAX_REGIONS, MAX_VARIABLES,
    REMOVE, SUM, SWITCH, TERM_ARGUMENTS, TEST, TRY_ELSE, TRY_THEN,
};
use memory::{ENTRY_BUILT, ENTRY_MADE, ENTRY_REMOVED, Heap, move_words};
use plans::{PLAN, SIDES, onto};
use records::word_in;

// The words of a frame's variables and regions.
const FRAME_NUMBERS: usize = MAX_VARIABLES + MAX_REGIONS;

// .. and one more: they are saved from word 0 or 1 on, see `run_on`.
pub const SAVED_WORDS: usize = FRAME_NUMBERS + 1;

// The words of the frame at a place, as they are before the condition.
pub fn save_frame(frames: &[u32], at: usize, own: &mut [u32; SAVED_WORDS], from: usize)
    requires { (at + frame_words ≤ length frames.now) × (from ≤ 1) }
    ensures own_after { own.new ≡ moved (at + 1) from frame_numbers frames.now own.old }
    ensures own_len { length own.old ≡ saved_words }
{
    move_words(frames, at + 1, &mut own[..], from, FRAME_NUMBERS);
}

// "When a test fails, the else part begins with variables, regions and cells exactly as before the condition".
pub fn take_back_all(
    at: usize,
    heap: Heap,
    count: usize,
    cells: &mut [u32],
    regions: &mut [u32],
    frames: &mut [u32],
    log: &[u32; LOG_WORDS],
    own: &[u32; SAVED_WORDS],
    from: usize,
) -> Heap
    requires { (at + frame_words ≤ length frames.old) × (from ≤ 1) }
    ensures by_index { (told : List ℕ) → Logs log.now told count
        → Is result cells.new regions.new (undone told count (stored heap cells.old regions.old)) }
    ensures frames_after { frames.new ≡ moved from (at + 1) frame_numbers own.now frames.old }
{
    let left = undo_log(heap, &mut cells[..], &mut regions[..], log, count);
    move_words(&own[..], from, &mut frames[..], at + 1, FRAME_NUMBERS);
    left
}

// The first goals of the parts of the try at record i, or what comes after it.
pub fn then_goal(file: &[u8], plan: &[usize; PLAN], i: usize) -> usize
    requires { (i < max_records) × (record_bytes * i + record_bytes ≤ length file.now) }
    ensures { result ≡ ontoOf (word file.now i try_then) (get_or plan.now i 0) }
{
    onto(word_in(file, i, TRY_THEN), successor(plan, i))
}

pub fn else_goal(file: &[u8], plan: &[usize; PLAN], i: usize) -> usize
    requires { (i < max_records) × (record_bytes * i + record_bytes ≤ length file.now) }
    ensures { result ≡ ontoOf (word file.now i try_else) (get_or plan.now i 0) }
{
    onto(word_in(file, i, TRY_ELSE), successor(plan, i))
}

// A sum or difference: 15 stops the run here too.
fn sum_in(
    file: &[u8],
    plan: &[usize; PLAN],
    state: State,
    heap: Heap,
    count: usize,
    frames: &mut [u32],
) -> Result<ConditionStep, Stop>
    requires formed { Formed file.now × Numbered file.now plan.now }
    requires goal_bound { (state.goal < record_count file.now) × IsSum file.now state.goal × FramePlaced state (length frames.old) }
    ensures { (images callees m rs log : List ℕ) → GoesIn file.now (tables_in plan.now images callees) state heap count
        m rs frames.old log result m rs frames.new log }
{
    let i = state.goal;
    let at = state.at;
    let v = sum(file, i, at, &frames[..]);
    if !in_range(v) {
        return Err(Stop::Sums);
    }
    give(&mut frames[..], at, word_in(file, i, GOAL_X), word_of(v));
    Ok(ConditionStep::On(heap, successor(plan, i), count))
}

// A construct: "11 no free cell". One without arguments makes no cell, and is not logged.
fn construct_in(
    file: &[u8],
    plan: &[usize; PLAN],
    state: State,
    heap: Heap,
    count: usize,
    cells: &mut [u32],
    regions: &mut [u32],
    frames: &mut [u32],
    log: &mut [u32; LOG_WORDS],
) -> Result<ConditionStep, Stop>
    requires formed { Formed file.now × Numbered file.now plan.now × (count < count_end) }
    requires goal_bound { (state.goal < record_count file.now) × IsConstruct file.now state.goal × FramePlaced state (length frames.old) }
    ensures { (images callees : List ℕ) → GoesIn file.now (tables_in plan.now images callees) state heap count
        cells.old regions.old frames.old log.old
        result cells.new regions.new frames.new log.new }
{
    let i = state.goal;
    let at = state.at;
    let home = region(&frames[..], at, plan[SIDES + i]);
    let made = construct::<false>(
        file,
        plan,
        i,
        at,
        heap,
        &mut cells[..],
        &mut regions[..],
        &mut frames[..],
    );
    let (_, left) = made.ok_or(Stop::Cells)?;
    let next = successor(plan, i);
    if word_in(file, i, TERM_ARGUMENTS) == 0 {
        return Ok(ConditionStep::On(left, next, count));
    }
    note(log, count, home, ENTRY_BUILT);
    Ok(ConditionStep::On(left, next, count + 1))
}

// A create: "12 no free region".
fn create_in(
    file: &[u8],
    plan: &[usize; PLAN],
    state: State,
    heap: Heap,
    count: usize,
    regions: &mut [u32],
    frames: &mut [u32],
    log: &mut [u32; LOG_WORDS],
) -> Result<ConditionStep, Stop>
    requires formed { Formed file.now × Numbered file.now plan.now × (count < count_end) }
    requires goal_bound { (state.goal < record_count file.now) × IsCreate file.now state.goal × FramePlaced state (length frames.old) }
    ensures { (images callees m : List ℕ) → GoesIn file.now (tables_in plan.now images callees) state heap count
        m regions.old frames.old log.old result m regions.new frames.new log.new }
{
    let i = state.goal;
    let made = make_region(file, i, state.at, heap, &mut regions[..], &mut frames[..]);
    let (place, left) = made.ok_or(Stop::Places)?;
    note(log, count, place, ENTRY_MADE);
    Ok(ConditionStep::On(left, successor(plan, i), count + 1))
}

// "A removal in a condition frees nothing before the then part begins": it is logged.
fn remove_in(
    file: &[u8],
    plan: &[usize; PLAN],
    state: State,
    heap: Heap,
    count: usize,
    frames: &[u32],
    log: &mut [u32; LOG_WORDS],
) -> Result<ConditionStep, Stop>
    requires formed { Formed file.now × Numbered file.now plan.now × (count < count_end) }
    requires goal_bound { (state.goal < record_count file.now) × IsRemove file.now state.goal × FramePlaced state (length frames.now) }
    ensures { (images callees m rs : List ℕ) → GoesIn file.now (tables_in plan.now images callees) state heap count
        m rs frames.now log.old result m rs frames.now log.new }
{
    let i = state.goal;
    let place = region(frames, state.at, word_in(file, i, LIFETIME_REGION));
    note(log, count, place, ENTRY_REMOVED);
    Ok(ConditionStep::On(heap, successor(plan, i), count + 1))
}

// A test, "which fails unless Y < Z".
fn test_in(
    file: &[u8],
    plan: &[usize; PLAN],
    state: State,
    heap: Heap,
    count: usize,
    frames: &[u32],
) -> Result<ConditionStep, Stop>
    requires formed { Formed file.now × Numbered file.now plan.now }
    requires goal_bound { (state.goal < record_count file.now) × IsTest file.now state.goal × FramePlaced state (length frames.now) }
    ensures { (images callees m rs log : List ℕ) → GoesIn file.now (tables_in plan.now images callees) state heap count
        m rs frames.now log result m rs frames.now log }
{
    let i = state.goal;
    if passes(file, i, state.at, frames) {
        return Ok(ConditionStep::On(heap, successor(plan, i), count));
    }
    Ok(ConditionStep::Fails)
}

// The goal at record state.goal, in a condition that has logged `count` entries.
pub fn step_in(
    file: &[u8],
    plan: &[usize; PLAN],
    state: State,
    heap: Heap,
    count: usize,
    cells: &mut [u32],
    regions: &mut [u32],
    frames: &mut [u32],
    log: &mut [u32; LOG_WORDS],
) -> Result<ConditionStep, Stop>
    requires formed { Formed file.now × Numbered file.now plan.now × (count < count_end) }
    requires goal_bound { (state.goal < record_count file.now) × (state.goal ≡ 0 → ⊥) × FramePlaced state (length frames.old) }
    ensures { (images callees : List ℕ) → GoesIn file.now (tables_in plan.now images callees) state heap count
        cells.old regions.old frames.old log.old
        result cells.new regions.new frames.new log.new }
{
    let i = state.goal;
    let at = state.at;
    match word_in(file, i, KIND) {
        LITERAL => {
            literal(file, i, at, &mut frames[..]);
            Ok(ConditionStep::On(heap, successor(plan, i), count))
        }
        SUM => sum_in(file, plan, state, heap, count, &mut frames[..]),
        ASSIGN => {
            assign(file, i, at, &mut frames[..]);
            Ok(ConditionStep::On(heap, successor(plan, i), count))
        }
        CONSTRUCT => construct_in(
            file,
            plan,
            state,
            heap,
            count,
            &mut cells[..],
            &mut regions[..],
            &mut frames[..],
            log,
        ),
        SWITCH => {
            let j = switch_arm::<false>(file, i, at, &cells[..], &mut frames[..]);
            Ok(ConditionStep::On(heap, successor(plan, j), count))
        }
        CREATE => create_in(
            file,
            plan,
            state,
            heap,
            count,
            &mut regions[..],
            &mut frames[..],
            log,
        ),
        REMOVE => remove_in(file, plan, state, heap, count, &frames[..], log),
        TEST => test_in(file, plan, state, heap, count, &frames[..]),
        _ => Ok(ConditionStep::On(heap, i, count)),
    }
}
