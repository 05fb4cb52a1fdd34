// A whole run.
ghost use Rattle.std.specs.Prelude.{◌≡◌, ◌≤◌, length};
ghost use Rattle.language.specs.Machine.{holds};
ghost use Rattle.chains.specs.Formed.{Formed};
ghost use Rattle.memory.specs.Memory.{cell_words, region_words, empty_heap};
ghost use Rattle.plans.specs.Plan.{Narrow, Numbered, tables_in};
ghost use Rattle.word_machine.specs.Machine.{frame_words, word_run};
ghost use Rattle.machine.specs.Runs.{ended_at, first_state, run_first, Ran};

use crate::calls::{body_of, settle, size_of};
use crate::entries::LOG_WORDS;
use crate::goals::successor;
use crate::heaps::{change_heap, changes_heap};
use crate::opened::SAVED_WORDS;
use crate::steps::{go, onward};
use crate::tries::{limited, run_try};
use crate::{Outcome, State, Step};
use frames::{FRAME_WORDS, clear};
use language::format::{KIND, MAX_BYTES, RECORD_BYTES};
use language::{Ending, Stop};
use memory::empty;
use plans::{CALLEES, PLAN};
use records::word_in;

// A run that ends at a state, after so many steps.
fn ended(ending: Ending, steps: usize, state: State) -> Outcome
    ensures { result ≡ ended_at ending steps state }
{
    Outcome {
        ending,
        steps,
        printed: state.printed,
    }
}

// Before the first step: the entry's frame, at its first goal.
pub fn first_state(callees: &[u64; CALLEES]) -> State
    ensures { result ≡ first_state callees.now }
{
    State {
        top: 0,
        at: 0,
        goal: body_of(callees, 0),
        printed: 0,
    }
}

// The run from the first step on. "An ended run is finished before 10 is looked at."
fn run_on(
    file: &[u8],
    plan: &[usize; PLAN],
    images: &[u8],
    callees: &[u64; CALLEES],
    cells: &mut [u32],
    regions: &mut [u32],
    frames: &mut [u32],
    prints: &mut [u32],
    log: &mut [u32; LOG_WORDS],
    own: &mut [u32; SAVED_WORDS],
    steps: usize,
) -> Outcome
    requires formed { Formed file.now × Narrow plan.now images.now × Numbered file.now plan.now }
    requires frame_words_in_bounds { frame_words ≤ length frames.old }
    ensures { Ran (run_first file.now (tables_in plan.now images.now callees.now) steps
        (empty_heap (holds (length cells.old) cell_words) (holds (length regions.old) region_words))
        cells.old regions.old frames.old prints.old (first_state callees.now))
        result cells.new regions.new frames.new prints.new }
{
    let mut heap = empty(&cells[..], &regions[..]);
    let mut state = first_state(callees);
    let mut left = steps;
    loop {
        let here = settle(file, plan, images, callees, state, frames);
        let i = here.goal;
        if i == 0 {
            return ended(Ending::Finished, steps - left, here);
        }
        if left == 0 {
            return ended(Ending::Stopped(Stop::Steps), steps - left, here);
        }
        if file.len() / RECORD_BYTES <= i {
            state = here;
            left -= 1;
            continue;
        }
        if changes_heap(word_in(file, i, KIND)) {
            let stepped = change_heap(file, plan, here, heap, cells, regions, frames);
            match stepped {
                Ok(h) => {
                    heap = h;
                    state = onward(here, successor(plan, i));
                    left -= 1;
                    continue;
                }
                Err(lack) => return ended(Ending::Stopped(lack), steps - left, here),
            }
        }
        let went = go(file, plan, images, callees, here, &*cells, frames, prints);
        match went {
            Ok(Step::Went(next)) => {
                state = next;
                left -= 1;
            }
            Err(stop) => return ended(Ending::Stopped(stop), steps - left, here),
            Ok(Step::Tries) => {
                // Called in two places, which differ in where the frame's words are saved, and with a state and a heap of its own: so the
                // compiler does not lay the condition's loop into this one, whose registers it would take.
                let start = onward(here, i);
                let old = limited(heap, heap);
                let tried = if file.len() < MAX_BYTES {
                    run_try(
                        file, plan, start, old, cells, regions, frames, log, own, 0, left,
                    )
                } else {
                    run_try(
                        file, plan, start, old, cells, regions, frames, log, own, 1, left,
                    )
                };
                match tried {
                    Ok(done) => {
                        heap = limited(done.heap, heap);
                        state = onward(here, done.goal);
                        left = done.left;
                    }
                    Err(stopped) => {
                        return ended(Ending::Stopped(stopped.stop), steps - stopped.left, here);
                    }
                }
            }
        }
    }
}

// A run in lent words. "The entry's frame is taken first."
pub fn run_words(
    file: &[u8],
    plan: &[usize; PLAN],
    images: &[u8],
    callees: &[u64; CALLEES],
    cells: &mut [u32],
    regions: &mut [u32],
    frames: &mut [u32],
    prints: &mut [u32],
    steps: usize,
) -> Outcome
    requires { Formed file.now × Narrow plan.now images.now × Numbered file.now plan.now }
    ensures { Ran (word_run file.now (tables_in plan.now images.now callees.now)
        cells.old regions.old frames.old prints.old steps)
        result cells.new regions.new frames.new prints.new }
{
    if frames.len() < FRAME_WORDS {
        return ended(Ending::Stopped(Stop::Frames), 0, first_state(callees));
    }
    clear(frames, 1, size_of(callees, 0));
    let mut log = [0; LOG_WORDS];
    let mut own = [0; SAVED_WORDS];
    run_on(
        file, plan, images, callees, cells, regions, frames, prints, &mut log, &mut own, steps,
    )
}
