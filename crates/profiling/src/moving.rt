// One step of a run that stands somewhere, with the counts after it.
ghost use Rattle.std.specs.Prelude.{◌≡◌, List, ℕ, ◌<◌, length};
ghost use Rattle.chains.specs.Formed.{Formed};
ghost use Rattle.plans.specs.Plan.{tables_in, Narrow, Numbered};
ghost use Rattle.profiling.specs.Moving.{RunStands, Moves, Ready};

use crate::beginning::closed;
use crate::counting::count;
use crate::trying::{enter, inside};
use crate::turning::step;
use crate::{Point, Turn};
use language::{Ending, Stop};
use machine::{LOG_WORDS, SAVED_WORDS};
use plans::{CALLEES, PLAN};
use std::ops::ControlFlow;

// One step outside conditions.
fn outside(
    file: &[u8],
    plan: &[usize; PLAN],
    images: &[u8],
    callees: &[u64; CALLEES],
    point: Point,
    cells: &mut [u32],
    regions: &mut [u32],
    frames: &mut [u32],
    prints: &mut [u32],
    own: &mut [u32; SAVED_WORDS],
) -> ControlFlow<Ending, Point>
    requires formed { Formed file.now × Narrow plan.now images.now × Numbered file.now plan.now }
    requires ready { Ready file.now point (length frames.old) }
    ensures { (l : ℕ) (log : List ℕ) → RunStands file.now (tables_in plan.now images.now callees.now) l
        cells.old regions.old frames.old prints.old log own.old point
        → point.condition.at ≡ 0 → point.done < l
        → Moves file.now (tables_in plan.now images.now callees.now) l
        cells.old regions.old frames.old prints.old point
        cells.new regions.new frames.new prints.new log own.new result }
{
    let state = point.state;
    let heap = point.heap;
    let limit = heap.cells.limit;
    let counts = count(
        file,
        state,
        limit,
        point.counts,
        &*cells,
        &*regions,
        &*frames,
    );
    let turn = step(
        file, plan, images, callees, state, heap, cells, regions, frames, prints,
    );
    match turn {
        Ok(Turn::On(next, left)) => ControlFlow::Continue(Point {
            state: next,
            heap: left,
            counts,
            done: point.done + 1,
            condition: closed(),
        }),
        Err(stop) => ControlFlow::Break(Ending::Stopped(stop)),
        Ok(Turn::Tries) => ControlFlow::Continue(enter(
            file, plan, images, callees, point, frames, own,
        )),
    }
}

// "An ended run is finished before 10 is looked at."
pub fn forward(
    file: &[u8],
    plan: &[usize; PLAN],
    images: &[u8],
    callees: &[u64; CALLEES],
    point: Point,
    cells: &mut [u32],
    regions: &mut [u32],
    frames: &mut [u32],
    prints: &mut [u32],
    log: &mut [u32; LOG_WORDS],
    own: &mut [u32; SAVED_WORDS],
    steps: usize,
) -> ControlFlow<Ending, Point>
    requires narrow { Narrow plan.now images.now × Numbered file.now plan.now }
    requires run_stands { RunStands file.now (tables_in plan.now images.now callees.now) steps cells.old regions.old frames.old prints.old
        log.old own.old point }
    ensures { Moves file.now (tables_in plan.now images.now callees.now) steps
        cells.old regions.old frames.old prints.old point
        cells.new regions.new frames.new prints.new log.new own.new result }
{
    let state = point.state;
    if state.goal == 0 {
        return ControlFlow::Break(Ending::Finished);
    }
    if steps <= point.done {
        return ControlFlow::Break(Ending::Stopped(Stop::Steps));
    }
    let open = point.condition;
    if open.at == 0 {
        return outside(
            file, plan, images, callees, point, cells, regions, frames, prints, own,
        );
    }
    inside(
        file, plan, images, callees, point, cells, regions, frames, log, &*own,
    )
}
