// One step: the goals that change the heap.
ghost use Rattle.std.specs.Prelude.{true, List, ℕ, ◌<◌, length};
ghost use Rattle.language.specs.File.{word, record_count};
ghost use Rattle.language.specs.Format.{kind_word};
ghost use Rattle.chains.specs.Formed.{Formed};
ghost use Rattle.chains.specs.Shapes.{IsConstruct, IsCreate};
ghost use Rattle.plans.specs.Plan.{Numbered, tables_in};
ghost use Rattle.machine.specs.Words.{FramePlaced, Changes, HeapGoes};

use crate::State;
use crate::cells::construct;
use crate::places::{drop_region, make_region};
use language::Stop;
use language::format::{CONSTRUCT, CREATE, KIND, REMOVE};
use memory::Heap;
use plans::PLAN;
use records::word_in;

// Whether goals of a kind change the heap; of constructs, those with arguments.
pub fn changes_heap(kind: usize) -> bool
    ensures { Changes kind result }
{
    match kind {
        CONSTRUCT => true,
        CREATE => true,
        REMOVE => true,
        _ => false,
    }
}

// A construct, "11 no free cell".
pub fn construct_step(
    file: &[u8],
    plan: &[usize; PLAN],
    state: State,
    heap: Heap,
    cells: &mut [u32],
    regions: &mut [u32],
    frames: &mut [u32],
) -> Result<Heap, Stop>
    requires formed { Formed file.now × Numbered file.now plan.now }
    requires goal_bound { (state.goal < record_count file.now) × IsConstruct file.now state.goal × FramePlaced state (length frames.old) }
    ensures { (images callees : List ℕ) → HeapGoes file.now (tables_in plan.now images callees) state heap
        cells.old regions.old frames.old result cells.new regions.new frames.new }
{
    let i = state.goal;
    let at = state.at;
    let made = construct::<true>(
        file,
        plan,
        i,
        at,
        heap,
        &mut cells[..],
        &mut regions[..],
        &mut frames[..],
    );
    let (_, left) = made.ok_or(Stop::Cells)?;
    Ok(left)
}

// A create, "12 no free region".
fn create_step(
    file: &[u8],
    plan: &[usize; PLAN],
    state: State,
    heap: Heap,
    regions: &mut [u32],
    frames: &mut [u32],
) -> Result<Heap, Stop>
    requires formed { Formed file.now × Numbered file.now plan.now }
    requires goal_bound { (state.goal < record_count file.now) × IsCreate file.now state.goal × FramePlaced state (length frames.old) }
    ensures { (images callees m : List ℕ) → HeapGoes file.now (tables_in plan.now images callees) state heap
        m regions.old frames.old result m regions.new frames.new }
{
    let i = state.goal;
    let at = state.at;
    let made = make_region(file, i, at, heap, &mut regions[..], &mut frames[..]);
    let (_, left) = made.ok_or(Stop::Places)?;
    Ok(left)
}

// A construct, a create or a remove. With the create first the compiled step is shorter.
pub fn change_heap(
    file: &[u8],
    plan: &[usize; PLAN],
    state: State,
    heap: Heap,
    cells: &mut [u32],
    regions: &mut [u32],
    frames: &mut [u32],
) -> Result<Heap, Stop>
    requires formed { Formed file.now × Numbered file.now plan.now }
    requires goal_bound { (state.goal < record_count file.now) × FramePlaced state (length frames.old) }
    requires changes { Changes (word file.now state.goal kind_word) true }
    ensures { (images callees : List ℕ) → HeapGoes file.now (tables_in plan.now images callees) state heap
        cells.old regions.old frames.old result cells.new regions.new frames.new }
{
    let i = state.goal;
    let at = state.at;
    match word_in(file, i, KIND) {
        CREATE => create_step(file, plan, state, heap, &mut regions[..], &mut frames[..]),
        CONSTRUCT => construct_step(
            file,
            plan,
            state,
            heap,
            &mut cells[..],
            &mut regions[..],
            &mut frames[..],
        ),
        _ => Ok(drop_region(
            file,
            i,
            at,
            heap,
            &mut cells[..],
            &mut regions[..],
            &frames[..],
        )),
    }
}
