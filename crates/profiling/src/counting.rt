// The counts of cells and regions held, goal by goal.
ghost use Rattle.std.specs.Prelude.{◌≡◌, List, ℕ, ◌-◌, ◌≤◌, ◌<◌, get_or};
ghost use Rattle.records.specs.Sizes.{word_end};
ghost use Rattle.records.specs.Records.{record_at};
ghost use Rattle.memory.specs.declared.Heap.{Heap};
ghost use Rattle.memory.specs.Memory.{most};
ghost use Rattle.word_machine.specs.Machine.{region_place};
ghost use Rattle.machine.specs.Words.{words_of};
ghost use Rattle.profiling.specs.Counting.{made_counted, counted};

use crate::Counts;
use crate::walking::region_size;
use frames::{FRAME_WORDS, REGIONS_FROM};
use language::format::{CONSTRUCT, CREATE, KIND, LIFETIME_REGION, REMOVE, TERM_ARGUMENTS};
use machine::State;
use records::word;

// What is left of a after b go; at least none.
fn less(a: u32, b: u32) -> u32
    ensures { result ≡ a - b }
{
    if b <= a { a - b } else { 0 }
}

// The place of what region number r of a frame stands for.
fn region_place(frames: &[u32], frame: u32, r: usize) -> u32
    requires { r < word_end }
    ensures { result ≡ get_or frames.now (region_place frame r) 0 }
{
    memory::word(frames, FRAME_WORDS * (frame as usize) + REGIONS_FROM + r)
}

// The counts after the goal at record i, if it removes nothing: a construct with arguments has one cell more, a create one region more.
pub fn count_made(file: &[u8], i: usize, counts: Counts) -> Counts
    requires { (counts.cells ≤ most) × (counts.regions ≤ most) }
    ensures { result ≡ made_counted (record_at file.now i) counts }
{
    match word(file, i, KIND) {
        CONSTRUCT => {
            if word(file, i, TERM_ARGUMENTS) == 0 {
                return counts;
            }
            Counts {
                cells: counts.cells + 1,
                regions: counts.regions,
            }
        }
        CREATE => Counts {
            cells: counts.cells,
            regions: counts.regions + 1,
        },
        _ => counts,
    }
}

// The counts after the next goal, from those before it and the words before it: a remove has as many cells less as the region has. There are `limit`
// places for cells.
pub fn count(
    file: &[u8],
    state: State,
    limit: u32,
    counts: Counts,
    cells: &[u32],
    regions: &[u32],
    frames: &[u32],
) -> Counts
    requires { (counts.cells ≤ most) × (counts.regions ≤ most) }
    ensures { (h : Heap) (ps : List ℕ) → h.cells.limit ≡ limit
        → result ≡ counted (words_of h cells.now regions.now frames.now ps state) (record_at file.now state.goal) counts }
{
    let i = state.goal;
    if word(file, i, KIND) != REMOVE {
        return count_made(file, i, counts);
    }
    let place = region_place(frames, state.top, word(file, i, LIFETIME_REGION));
    let size = region_size(cells, regions, limit, place);
    Counts {
        cells: less(counts.cells, size),
        regions: less(counts.regions, 1),
    }
}
