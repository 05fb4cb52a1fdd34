// How many cells a region has.
ghost use Rattle.std.specs.Prelude.{◌≡◌};
ghost use Rattle.profiling.specs.Walking.{size_at};

use memory::{CELL_NEXT, REGION_LAST, REGION_WORDS, cell_word, word};

// The cells of the region at a place, found by walking its chain to its last cell. There are `limit` places for cells; an empty region's last word is none.
pub fn region_size(cells: &[u32], regions: &[u32], limit: u32, region: u32) -> u32
    ensures { result ≡ size_at limit cells.now regions.now region }
{
    let at = REGION_WORDS * (region as usize);
    let last = word(regions, at + REGION_LAST);
    if limit <= last {
        return 0;
    }
    let mut cell = word(regions, at);
    for n in 0..limit {
        if cell == last {
            return n + 1;
        }
        cell = cell_word(cells, cell, CELL_NEXT as u32);
    }
    limit
}
