// One step outside conditions, by the runner's own functions.
ghost use Rattle.std.specs.Prelude.{◌<◌, length};
ghost use Rattle.language.specs.File.{record_count};
ghost use Rattle.chains.specs.Formed.{Formed};
ghost use Rattle.plans.specs.Plan.{tables_in, Narrow, Numbered};
ghost use Rattle.machine.specs.Words.{FramePlaced};
ghost use Rattle.profiling.specs.Turning.{Turns};

use crate::Turn;
use language::Stop;
use language::format::KIND;
use machine::{State, Step, change_heap, changes_heap, go, onward, settle, successor};
use memory::Heap;
use plans::{CALLEES, PLAN};
use records::word_in;

// The newest frame's next goal is carried out, and frames without goals go.
pub fn step(
    file: &[u8],
    plan: &[usize; PLAN],
    images: &[u8],
    callees: &[u64; CALLEES],
    state: State,
    heap: Heap,
    cells: &mut [u32],
    regions: &mut [u32],
    frames: &mut [u32],
    prints: &mut [u32],
) -> Result<Turn, Stop>
    requires formed { Formed file.now }
    requires narrow { Narrow plan.now images.now × Numbered file.now plan.now }
    requires goal_bound { (state.goal < record_count file.now) × FramePlaced state (length frames.old) }
    ensures { Turns file.now (tables_in plan.now images.now callees.now) state heap
        cells.old regions.old frames.old prints.old
        result cells.new regions.new frames.new prints.new }
{
    let i = state.goal;
    if changes_heap(word_in(file, i, KIND)) {
        let left = change_heap(file, plan, state, heap, cells, regions, frames)?;
        let next = onward(state, successor(plan, i));
        return Ok(Turn::On(settle(file, plan, images, callees, next, frames), left));
    }
    let went = go(
        file,
        plan,
        images,
        callees,
        state,
        &cells[..],
        frames,
        prints,
    )?;
    match went {
        Step::Went(next) => Ok(Turn::On(settle(file, plan, images, callees, next, frames), heap)),
        Step::Tries => Ok(Turn::Tries),
    }
}
