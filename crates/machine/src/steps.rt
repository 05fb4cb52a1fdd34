// One step: the goals that leave cells and regions alone.
ghost use Rattle.std.specs.Prelude.{◌≡◌, List, ℕ, ◌<◌, length, false, Ok};
ghost use Rattle.language.specs.File.{word, record_count};
ghost use Rattle.language.specs.Format.{kind_word};
ghost use Rattle.chains.specs.Formed.{Formed};
ghost use Rattle.chains.specs.Shapes.{IsCall, IsIf, IsPrint, IsSum, IsSwitch};
ghost use Rattle.plans.specs.Plan.{Narrow, Numbered, tables_in};
ghost use Rattle.machine.specs.declared.Step.TheVariants.{Went};
ghost use Rattle.machine.specs.Words.{FramePlaced, Changes, onward_to, Goes, GoesOrTries};

use crate::arms::switch_arm;
use crate::calls::call;
use crate::goals::{assign, literal, part_of, successor, sum};
use crate::{State, Step};
use frames::{FRAME_WORDS, give, in_range, value, word_of};
use language::Stop;
use language::format::{ASSIGN, CALL, GOAL_X, IF, KIND, LITERAL, PRINT, PRINT_Y, SUM, SWITCH, TRY};
use memory::{put, room};
use plans::{CALLEES, PLAN, onto};
use records::word_in;

// "1 a printed number".
const PRINT_WORDS: usize = 1;

// The newest frame goes on at record goal.
pub fn onward(state: State, goal: usize) -> State
    ensures { result ≡ onward_to state goal }
{
    State {
        top: state.top,
        at: state.at,
        goal,
        printed: state.printed,
    }
}

// A sum or difference, 15 for one "outside −2,147,483,648 to 2,147,483,647".
pub fn sum_step(
    file: &[u8],
    plan: &[usize; PLAN],
    state: State,
    frames: &mut [u32],
) -> Result<Step, Stop>
    requires formed { Formed file.now × Numbered file.now plan.now }
    requires goal_bound { (state.goal < record_count file.now) × IsSum file.now state.goal × FramePlaced state (length frames.old) }
    ensures { (images callees m ps : List ℕ) → Goes file.now (tables_in plan.now images callees)
        state m frames.old ps result frames.new ps }
{
    let i = state.goal;
    let at = state.at;
    let v = sum(file, i, at, &frames[..]);
    if !in_range(v) {
        return Err(Stop::Sums);
    }
    give(&mut frames[..], at, word_in(file, i, GOAL_X), word_of(v));
    Ok(Step::Went(onward(state, successor(plan, i))))
}

// A call, "13 no free frame".
fn call_step(
    file: &[u8],
    plan: &[usize; PLAN],
    images: &[u8],
    callees: &[u64; CALLEES],
    state: State,
    frames: &mut [u32],
) -> Result<Step, Stop>
    requires formed { Formed file.now }
    requires narrow { Narrow plan.now images.now }
    requires goal_bound { (state.goal < record_count file.now) × IsCall file.now state.goal × FramePlaced state (length frames.old) }
    ensures { (m ps : List ℕ) → Goes file.now (tables_in plan.now images.now callees.now)
        state m frames.old ps result frames.new ps }
{
    let k = state.top;
    let at = state.at;
    let i = state.goal;
    let printed = state.printed;
    let limit = room(frames.len(), FRAME_WORDS) as usize;
    let above = (k as usize) + 1;
    if limit <= above {
        return Err(Stop::Frames);
    }
    let goal = call(file, plan, images, callees, i, at, &mut frames[..]);
    Ok(Step::Went(State {
        top: k + 1,
        at: at + FRAME_WORDS,
        goal,
        printed,
    }))
}

// A print, "14 no place for a printed number".
fn print_step(
    file: &[u8],
    plan: &[usize; PLAN],
    state: State,
    frames: &[u32],
    prints: &mut [u32],
) -> Result<Step, Stop>
    requires formed { Formed file.now × Numbered file.now plan.now }
    requires goal_bound { (state.goal < record_count file.now) × IsPrint file.now state.goal × FramePlaced state (length frames.now) }
    ensures { (images callees m : List ℕ) → Goes file.now (tables_in plan.now images callees)
        state m frames.now prints.old result frames.now prints.new }
{
    let k = state.top;
    let at = state.at;
    let i = state.goal;
    let printed = state.printed;
    let limit = room(prints.len(), PRINT_WORDS) as usize;
    if limit <= printed {
        return Err(Stop::Prints);
    }
    let v = value(frames, at, word_in(file, i, PRINT_Y));
    put(&mut prints[..], printed, v);
    Ok(Step::Went(State {
        top: k,
        at,
        goal: successor(plan, i),
        printed: printed + 1,
    }))
}

// A switch.
pub fn switch_step(
    file: &[u8],
    plan: &[usize; PLAN],
    state: State,
    cells: &[u32],
    frames: &mut [u32],
) -> State
    requires formed { Formed file.now × Numbered file.now plan.now }
    requires goal_bound { (state.goal < record_count file.now) × IsSwitch file.now state.goal × FramePlaced state (length frames.old) }
    ensures { (images callees ps : List ℕ) → Goes file.now (tables_in plan.now images callees)
        state cells.now frames.old ps (Ok (Went result)) frames.new ps }
{
    let i = state.goal;
    let at = state.at;
    let j = switch_arm::<true>(file, i, at, cells, &mut frames[..]);
    onward(state, successor(plan, j))
}

// An if.
fn if_step(file: &[u8], plan: &[usize; PLAN], state: State, frames: &[u32]) -> State
    requires formed { Formed file.now × Numbered file.now plan.now }
    requires goal_bound { (state.goal < record_count file.now) × IsIf file.now state.goal × FramePlaced state (length frames.now) }
    ensures { (images callees m ps : List ℕ) → Goes file.now (tables_in plan.now images callees)
        state m frames.now ps (Ok (Went result)) frames.now ps }
{
    let i = state.goal;
    let at = state.at;
    let part = part_of(file, i, at, frames);
    onward(state, onto(part, successor(plan, i)))
}

// The goal at record state.goal, one that leaves cells and regions alone; a try is only told.
pub fn go(
    file: &[u8],
    plan: &[usize; PLAN],
    images: &[u8],
    callees: &[u64; CALLEES],
    state: State,
    cells: &[u32],
    frames: &mut [u32],
    prints: &mut [u32],
) -> Result<Step, Stop>
    requires formed { Formed file.now × Numbered file.now plan.now }
    requires narrow { Narrow plan.now images.now }
    requires goal_bound { (state.goal < record_count file.now) × FramePlaced state (length frames.old) }
    requires changes { Changes (word file.now state.goal kind_word) false }
    ensures { GoesOrTries file.now (tables_in plan.now images.now callees.now) state
        cells.now frames.old prints.old result frames.new prints.new }
{
    let i = state.goal;
    let at = state.at;
    match word_in(file, i, KIND) {
        LITERAL => {
            literal(file, i, at, &mut frames[..]);
            Ok(Step::Went(onward(state, successor(plan, i))))
        }
        SUM => sum_step(file, plan, state, &mut frames[..]),
        ASSIGN => {
            assign(file, i, at, &mut frames[..]);
            Ok(Step::Went(onward(state, successor(plan, i))))
        }
        SWITCH => Ok(Step::Went(switch_step(file, plan, state, cells, &mut frames[..]))),
        IF => Ok(Step::Went(if_step(file, plan, state, &frames[..]))),
        CALL => call_step(file, plan, images, callees, state, &mut frames[..]),
        PRINT => print_step(file, plan, state, &frames[..], &mut prints[..]),
        TRY => Ok(Step::Tries),
        _ => Ok(Step::Went(state)),
    }
}
