// What an open condition built is taken back (C-20).
ghost use Rattle.std.specs.Prelude.{◌≡◌};
ghost use Rattle.memory.specs.Log.{unbuilt, unbuilt_cells, unbuilt_regions};

use crate::words::{put, word};
use crate::{CELL_NEXT, CELL_WORDS, Heap, Pool, REGION_LAST, REGION_WORDS};

// A region's first cell goes before the free ones.
pub fn take_back(heap: Heap, cells: &mut [u32], regions: &mut [u32], region: u32) -> Heap
    ensures { (result ≡ unbuilt heap regions.old region)
        × (cells.new ≡ unbuilt_cells heap cells.old regions.old region)
        × (regions.new ≡ unbuilt_regions heap cells.old regions.old region) }
{
    let free = heap.cells;
    let places = heap.regions;
    let at = REGION_WORDS * (region as usize);
    let first = word(&regions[..], at);
    let last = word(&regions[..], at + REGION_LAST);
    let link = CELL_WORDS * (first as usize) + CELL_NEXT;
    let next = word(&cells[..], link);
    put(&mut cells[..], link, free.head);
    put(&mut regions[..], at, next);
    if first == last {
        put(&mut regions[..], at + REGION_LAST, free.limit);
    }
    Heap {
        cells: Pool {
            head: first,
            top: free.top,
            limit: free.limit,
        },
        regions: places,
    }
}
