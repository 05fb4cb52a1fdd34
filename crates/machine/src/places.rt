// Goals that create and remove regions.
ghost use Rattle.std.specs.Prelude.{◌≡◌, ◌+◌, ◌*◌, ◌≤◌, length};
ghost use Rattle.language.specs.File.{word};
ghost use Rattle.language.specs.Format.{record_bytes, max_regions, lifetime_region};
ghost use Rattle.memory.specs.Memory.{created, created_regions, removed, removed_cells, removed_regions};
ghost use Rattle.word_machine.specs.Machine.{frame_words, regions_from};
ghost use Rattle.machine.specs.GoalWords.{region_for, placed};

use frames::{name_region, region};
use language::format::LIFETIME_REGION;
use memory::{Heap, create, remove};
use records::word_in;

// "Create makes a new region".
pub fn make_region(
    file: &[u8],
    i: usize,
    at: usize,
    heap: Heap,
    regions: &mut [u32],
    frames: &mut [u32],
) -> Option<(u32, Heap)>
    requires record_bytes_in_bounds { (record_bytes * i + record_bytes ≤ length file.now) × (at + frame_words ≤ length frames.old) }
    requires lifetime_region_bound { word file.now i lifetime_region ≤ max_regions }
    ensures value { result ≡ created heap regions.old }
    ensures regions_after { regions.new ≡ created_regions heap regions.old }
    ensures frames_after { frames.new ≡ placed (at + regions_from + word file.now i lifetime_region) result frames.old }
{
    let (place, left) = create(heap, &mut regions[..])?;
    name_region(
        &mut frames[..],
        at,
        word_in(file, i, LIFETIME_REGION),
        place,
    );
    Some((place, left))
}

// "Remove destroys one with its cells".
pub fn drop_region(
    file: &[u8],
    i: usize,
    at: usize,
    heap: Heap,
    cells: &mut [u32],
    regions: &mut [u32],
    frames: &[u32],
) -> Heap
    requires record_bytes_in_bounds { (record_bytes * i + record_bytes ≤ length file.now) × (at + frame_words ≤ length frames.now) }
    requires lifetime_region_bound { word file.now i lifetime_region ≤ max_regions }
    ensures { (result ≡ removed heap regions.old (region_for file.now i at frames.now))
        × (cells.new ≡ removed_cells heap cells.old regions.old (region_for file.now i at frames.now))
        × (regions.new ≡ removed_regions heap regions.old (region_for file.now i at frames.now)) }
{
    let place = region(frames, at, word_in(file, i, LIFETIME_REGION));
    remove(heap, &mut cells[..], &mut regions[..], place)
}
