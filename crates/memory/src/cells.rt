// The words of a cell: its functor, up to four arguments, and the next cell of its region.
ghost use Rattle.std.specs.Prelude.{◌≡◌};
ghost use Rattle.memory.specs.Memory.{first, cell_word, with_link, hung};

use crate::words::{put, word};
use crate::{CELL_NEXT, CELL_WORDS, REGION_LAST, REGION_WORDS};

// Word 0 is the functor, words 1 to 4 are the arguments.
pub fn cell_word(cells: &[u32], cell: u32, k: u32) -> u32
    ensures { result ≡ cell_word cells.now cell k }
{
    word(&cells[..], CELL_WORDS * (cell as usize) + (k as usize))
}

// A cell becomes the first of a region's; of a region that had none, the last too. An empty region's last word is no cell's place.
fn hang(regions: &mut [u32], region: u32, cell: u32, limit: u32)
    ensures { regions.new ≡ hung regions.old region cell limit }
{
    let at = REGION_WORDS * (region as usize);
    let last = word(&regions[..], at + REGION_LAST);
    put(&mut regions[..], at, cell);
    if limit <= last {
        put(&mut regions[..], at + REGION_LAST, cell);
    }
}

// A cell that is filled, taken from as many cells as `limit`, becomes the first of a region's.
pub fn hang_cell(cells: &mut [u32], regions: &mut [u32], region: u32, cell: u32, limit: u32)
    ensures { (cells.new ≡ with_link cells.old cell (first regions.old region))
        × (regions.new ≡ hung regions.old region cell limit) }
{
    let next = word(&regions[..], REGION_WORDS * (region as usize));
    put(
        &mut cells[..],
        CELL_WORDS * (cell as usize) + CELL_NEXT,
        next,
    );
    hang(&mut regions[..], region, cell, limit);
}
