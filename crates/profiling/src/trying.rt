// A try's step, the steps in its condition, and those that end it (C-20), by the runner's own functions.
ghost use Rattle.std.specs.Prelude.{◌≡◌, List, ℕ, ◌≤◌, ◌<◌, length};
ghost use Rattle.memory.specs.Memory.{most};
ghost use Rattle.chains.specs.Formed.{Formed};
ghost use Rattle.chains.specs.Shapes.{IsTry};
ghost use Rattle.plans.specs.Plan.{tables_in, Narrow, Numbered};
ghost use Rattle.machine.specs.Words.{FramePlaced};
ghost use Rattle.machine.specs.Trying.{count_end};
ghost use Rattle.std.proofs.Common.{Continue};
ghost use Rattle.profiling.specs.Moving.{RunStands, Moves, Ready, ReadyIn};
ghost use Rattle.profiling.specs.Behind.{opened_to, Behind, Leaves, GoesBack, Took};

use crate::beginning::closed;
use crate::counting::{count, count_made};
use crate::{Counts, Open, Point};
use language::format::TRY_CONDITION;
use language::{Ending, Stop};
use machine::{
    ConditionStep, LOG_WORDS, SAVED_WORDS, else_goal, free_log, onward, save_frame, settle,
    step_in, take_back_all, then_goal,
};
use memory::Heap;
use plans::{CALLEES, PLAN};
use records::word_in;
use std::ops::ControlFlow;

// Where the frame's words are saved.
const SAVED_FROM: usize = 1;

// The point one step behind another, where a condition has ended: the run goes on outside it at the given goal.
fn behind(
    file: &[u8],
    plan: &[usize; PLAN],
    images: &[u8],
    callees: &[u64; CALLEES],
    point: Point,
    goal: usize,
    heap: Heap,
    counts: Counts,
    frames: &mut [u32],
) -> Point
    requires formed { Formed file.now × Narrow plan.now images.now }
    requires frame_placed { FramePlaced point.state (length frames.old) × (point.done < count_end) }
    ensures behind { Behind file.now (tables_in plan.now images.now callees.now) point goal counts
        frames.old frames.new result }
    ensures heap_value { result.heap ≡ heap }
{
    let state = point.state;
    let next = onward(state, goal);
    Point {
        state: settle(file, plan, images, callees, next, frames),
        heap,
        counts,
        done: point.done + 1,
        condition: closed(),
    }
}

// The try at the next goal: its condition opens with nothing logged, or has no goal and ends at once.
pub fn enter(
    file: &[u8],
    plan: &[usize; PLAN],
    images: &[u8],
    callees: &[u64; CALLEES],
    point: Point,
    frames: &mut [u32],
    own: &mut [u32; SAVED_WORDS],
) -> Point
    requires formed { Formed file.now × Narrow plan.now images.now }
    requires ready { Ready file.now point (length frames.old) }
    ensures { (l : ℕ) (m rs ps log : List ℕ) → RunStands file.now (tables_in plan.now images.now callees.now) l
        m rs frames.old ps log own.old point
        → point.condition.at ≡ 0 → point.done < l → IsTry file.now point.state.goal
        → Moves file.now (tables_in plan.now images.now callees.now) l
        m rs frames.old ps point m rs frames.new ps log own.new (Continue result) }
{
    let state = point.state;
    let heap = point.heap;
    let counts = point.counts;
    let i = state.goal;
    let first = word_in(file, i, TRY_CONDITION);
    if first == 0 {
        let goal = then_goal(file, plan, i);
        return behind(
            file, plan, images, callees, point, goal, heap, counts, frames,
        );
    }
    save_frame(&*frames, state.at, own, SAVED_FROM);
    Point {
        state: onward(state, first),
        heap,
        counts,
        done: point.done + 1,
        condition: Open {
            at: i,
            logged: 0,
            left: counts,
            before: counts,
        },
    }
}

// The point one step behind another in the same condition, whose next goal is given.
fn opened(file: &[u8], point: Point, heap: Heap, goal: usize, logged: usize, left: Counts) -> Point
    requires { (point.counts.cells ≤ most) × (point.counts.regions ≤ most) × (point.done < count_end) }
    ensures { result ≡ opened_to file.now point heap goal logged left }
{
    let state = point.state;
    let open = point.condition;
    let counts = point.counts;
    let before = open.before;
    Point {
        state: onward(state, goal),
        heap,
        counts: count_made(file, state.goal, counts),
        done: point.done + 1,
        condition: Open {
            at: open.at,
            logged,
            left,
            before,
        },
    }
}

// The condition's last goal is done: what it removed goes, and the then part is next.
fn leave(
    file: &[u8],
    plan: &[usize; PLAN],
    images: &[u8],
    callees: &[u64; CALLEES],
    point: Point,
    heap: Heap,
    logged: usize,
    left: Counts,
    cells: &mut [u32],
    regions: &mut [u32],
    frames: &mut [u32],
    log: &[u32; LOG_WORDS],
) -> Point
    requires formed { Formed file.now × Narrow plan.now images.now }
    requires ready_in { ReadyIn file.now point (length frames.old) }
    ensures { Leaves file.now (tables_in plan.now images.now callees.now) point heap logged left
        log.now cells.old regions.old frames.old
        cells.new regions.new frames.new result }
{
    let open = point.condition;
    let freed = free_log(heap, cells, regions, log, logged);
    let goal = then_goal(file, plan, open.at);
    behind(
        file, plan, images, callees, point, goal, freed, left, frames,
    )
}

// A test fails: "the else part begins with variables, regions and cells exactly as before the condition".
fn go_back(
    file: &[u8],
    plan: &[usize; PLAN],
    images: &[u8],
    callees: &[u64; CALLEES],
    point: Point,
    cells: &mut [u32],
    regions: &mut [u32],
    frames: &mut [u32],
    log: &[u32; LOG_WORDS],
    own: &[u32; SAVED_WORDS],
) -> Point
    requires formed { Formed file.now × Narrow plan.now images.now }
    requires ready_in { ReadyIn file.now point (length frames.old) }
    ensures { GoesBack file.now (tables_in plan.now images.now callees.now) point
        log.now own.now cells.old regions.old frames.old
        cells.new regions.new frames.new result }
{
    let open = point.condition;
    let state = point.state;
    let heap = point.heap;
    let counts = open.before;
    let back = take_back_all(
        state.at,
        heap,
        open.logged,
        cells,
        regions,
        frames,
        log,
        own,
        SAVED_FROM,
    );
    let goal = else_goal(file, plan, open.at);
    behind(
        file, plan, images, callees, point, goal, back, counts, frames,
    )
}

// What a step in the condition comes to. `left` is the counts behind it without what the condition removed.
fn after(
    file: &[u8],
    plan: &[usize; PLAN],
    images: &[u8],
    callees: &[u64; CALLEES],
    point: Point,
    stepped: Result<ConditionStep, Stop>,
    left: Counts,
    cells: &mut [u32],
    regions: &mut [u32],
    frames: &mut [u32],
    log: &[u32; LOG_WORDS],
    own: &[u32; SAVED_WORDS],
) -> ControlFlow<Ending, Point>
    requires formed { Formed file.now × Narrow plan.now images.now }
    requires ready_in { ReadyIn file.now point (length frames.old) }
    ensures { (l : ℕ) (m rs fw ps before : List ℕ)
        → Took file.now (tables_in plan.now images.now callees.now) l
        m rs fw ps before own.now point stepped left cells.old regions.old frames.old log.now
        → Moves file.now (tables_in plan.now images.now callees.now) l
        m rs fw ps point cells.new regions.new frames.new ps log.now own.now result }
{
    match stepped {
        Ok(ConditionStep::On(heap, goal, logged)) => {
            if goal != 0 {
                return ControlFlow::Continue(opened(file, point, heap, goal, logged, left));
            }
            ControlFlow::Continue(leave(
                file, plan, images, callees, point, heap, logged, left, cells, regions, frames, log,
            ))
        }
        Ok(ConditionStep::Fails) => ControlFlow::Continue(go_back(
            file, plan, images, callees, point, cells, regions, frames, log, own,
        )),
        Err(stop) => ControlFlow::Break(Ending::Stopped(stop)),
    }
}

// One step in an open condition. "A removal in a condition frees nothing before the then part begins": it counts for what is left alone.
pub fn inside(
    file: &[u8],
    plan: &[usize; PLAN],
    images: &[u8],
    callees: &[u64; CALLEES],
    point: Point,
    cells: &mut [u32],
    regions: &mut [u32],
    frames: &mut [u32],
    log: &mut [u32; LOG_WORDS],
    own: &[u32; SAVED_WORDS],
) -> ControlFlow<Ending, Point>
    requires formed { Formed file.now × Narrow plan.now images.now × Numbered file.now plan.now }
    requires ready_in { ReadyIn file.now point (length frames.old) }
    ensures { (l : ℕ) (ps : List ℕ) → RunStands file.now (tables_in plan.now images.now callees.now) l
        cells.old regions.old frames.old ps log.old own.now point
        → point.done < l
        → Moves file.now (tables_in plan.now images.now callees.now) l
        cells.old regions.old frames.old ps point
        cells.new regions.new frames.new ps log.new own.now result }
{
    let state = point.state;
    let open = point.condition;
    let heap = point.heap;
    let limit = heap.cells.limit;
    let held = open.left;
    let left = count(file, state, limit, held, &*cells, &*regions, &*frames);
    let stepped = step_in(
        file,
        plan,
        state,
        heap,
        open.logged,
        cells,
        regions,
        frames,
        log,
    );
    after(
        file, plan, images, callees, point, stepped, left, cells, regions, frames, &*log, own,
    )
}
