// Regions are created and removed, cells are built in them. No step looks through the memory.
ghost use Rattle.std.specs.Prelude.{◌≡◌, length};
ghost use Rattle.language.specs.Machine.{holds};
ghost use Rattle.memory.specs.Memory.{cell_words, region_words, empty_heap, created, created_regions, built, removed, removed_cells, removed_regions};

use crate::pools::{fresh, room, take};
use crate::words::{put, word};
use crate::{CELL_NEXT, CELL_WORDS, Heap, Pool, REGION_LAST, REGION_WORDS};

// Before the first step. The words keep what stands there.
pub fn empty(cells: &[u32], regions: &[u32]) -> Heap
    ensures { result ≡ empty_heap (holds (length cells.now) cell_words) (holds (length regions.now) region_words) }
{
    Heap {
        cells: fresh(room(cells.len(), CELL_WORDS)),
        regions: fresh(room(regions.len(), REGION_WORDS)),
    }
}

// "Create makes a new region": one without cells. Its place, and the heap after it.
pub fn create(heap: Heap, regions: &mut [u32]) -> Option<(u32, Heap)>
    ensures { (result ≡ created heap regions.old) × (regions.new ≡ created_regions heap regions.old) }
{
    let cells = heap.cells;
    let free = heap.regions;
    let link = word(&regions[..], REGION_WORDS * (free.head as usize));
    let (region, left) = take(free, link)?;
    put(
        &mut regions[..],
        REGION_WORDS * (region as usize) + REGION_LAST,
        cells.limit,
    );
    Some((
        region,
        Heap {
            cells,
            regions: left,
        },
    ))
}

// "A construct makes one cell": its place, and the heap without it. The cell stands in no region yet.
pub fn take_cell(heap: Heap, cells: &[u32]) -> Option<(u32, Heap)>
    ensures { result ≡ built heap cells.now }
{
    let free = heap.cells;
    let places = heap.regions;
    let link = word(&cells[..], CELL_WORDS * (free.head as usize) + CELL_NEXT);
    let (cell, left) = take(free, link)?;
    Some((
        cell,
        Heap {
            cells: left,
            regions: places,
        },
    ))
}

// "Remove destroys one with its cells": they go before the free ones, all at once.
pub fn remove(heap: Heap, cells: &mut [u32], regions: &mut [u32], region: u32) -> Heap
    ensures { (result ≡ removed heap regions.old region)
        × (cells.new ≡ removed_cells heap cells.old regions.old region)
        × (regions.new ≡ removed_regions heap regions.old region) }
{
    let free = heap.cells;
    let places = heap.regions;
    let at = REGION_WORDS * (region as usize);
    let first = word(&regions[..], at);
    let last = word(&regions[..], at + REGION_LAST);
    put(&mut regions[..], at, places.head);
    let left = Pool {
        head: region,
        top: places.top,
        limit: places.limit,
    };
    if free.limit <= last {
        return Heap {
            cells: free,
            regions: left,
        };
    }
    put(
        &mut cells[..],
        CELL_WORDS * (last as usize) + CELL_NEXT,
        free.head,
    );
    Heap {
        cells: Pool {
            head: first,
            top: free.top,
            limit: free.limit,
        },
        regions: left,
    }
}
