// A condition carried out, from its try to where the run goes on outside it.
ghost use Rattle.std.specs.Prelude.{◌≡◌, List, ℕ, ◌≤◌, ◌<◌, length};
ghost use Rattle.language.specs.File.{record_count};
ghost use Rattle.chains.specs.Formed.{Formed};
ghost use Rattle.chains.specs.Shapes.{IsTry};
ghost use Rattle.plans.specs.Plan.{Numbered, tables_in};
ghost use Rattle.machine.specs.Words.{FramePlaced};
ghost use Rattle.machine.specs.Trying.{Tried};

use crate::entries::{LOG_WORDS, free_log, log_length};
use crate::opened::{SAVED_WORDS, else_goal, save_frame, step_in, take_back_all, then_goal};
use crate::steps::onward;
use crate::{ConditionStep, State, TryDone, TryStopped};
use language::Stop;
use language::format::{RECORD_BYTES, TRY_CONDITION};
use memory::{Heap, Pool};
use plans::PLAN;
use records::word_in;

// The try at record state.goal, `steps` steps being left, at least one. The frame's words are saved from word `from` on.
pub fn run_try(
    file: &[u8],
    plan: &[usize; PLAN],
    state: State,
    heap: Heap,
    cells: &mut [u32],
    regions: &mut [u32],
    frames: &mut [u32],
    log: &mut [u32; LOG_WORDS],
    own: &mut [u32; SAVED_WORDS],
    from: usize,
    steps: usize,
) -> Result<TryDone, TryStopped>
    requires formed { Formed file.now × Numbered file.now plan.now × (from ≤ 1) × (0 < steps) }
    requires goal_bound { (state.goal < record_count file.now) × (state.goal ≡ 0 → ⊥) × IsTry file.now state.goal × FramePlaced state (length frames.old) }
    ensures { (images callees : List ℕ) → Tried file.now (tables_in plan.now images callees) state heap steps
        cells.old regions.old frames.old result cells.new regions.new frames.new }
{
    let i = state.goal;
    log_length(&*log);
    save_frame(&*frames, state.at, own, from);
    let mut here = onward(state, word_in(file, i, TRY_CONDITION));
    let mut made = heap;
    let mut count = 0;
    let mut left = steps - 1;
    loop {
        if here.goal == 0 {
            let freed = free_log(made, cells, regions, &*log, count);
            return Ok(TryDone {
                heap: freed,
                goal: then_goal(file, plan, i),
                left,
            });
        }
        if left == 0 {
            return Err(TryStopped {
                stop: Stop::Steps,
                left,
            });
        }
        if file.len() / RECORD_BYTES <= here.goal {
            left -= 1;
            continue;
        }
        let stepped = step_in(file, plan, here, made, count, cells, regions, frames, log);
        match stepped {
            Ok(ConditionStep::On(h, goal, n)) => {
                made = h;
                here = onward(here, goal);
                count = n;
                left -= 1;
            }
            Ok(ConditionStep::Fails) => {
                let back = take_back_all(
                    here.at, made, count, cells, regions, frames, &*log, &*own, from,
                );
                return Ok(TryDone {
                    heap: back,
                    goal: else_goal(file, plan, i),
                    left: left - 1,
                });
            }
            Err(stop) => return Err(TryStopped { stop, left }),
        }
    }
}

// A heap with as many places as another has.
pub fn limited(heap: Heap, as_in: Heap) -> Heap
    ensures { (heap.cells.limit ≡ as_in.cells.limit) → (heap.regions.limit ≡ as_in.regions.limit) → result ≡ heap }
{
    let cells = heap.cells;
    let regions = heap.regions;
    let c = as_in.cells;
    let r = as_in.regions;
    Heap {
        cells: Pool {
            head: cells.head,
            top: cells.top,
            limit: c.limit,
        },
        regions: Pool {
            head: regions.head,
            top: regions.top,
            limit: r.limit,
        },
    }
}
