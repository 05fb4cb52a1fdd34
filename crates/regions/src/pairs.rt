// The call's mapping, pair by pair: a region of the callee gets a region of the caller for its image, and so on along equal edges.
ghost use Rattle.std.specs.Prelude.{◌≡◌, true, false, ◌⊎◌, ◌<◌, ◌≤◌};
ghost use Rattle.language.specs.File;
ghost use Rattle.chains.specs.Formed.{Formed, Stands};
ghost use Rattle.regions.specs.Pairs.{Standing, Grown, RegionMapped, EdgesMapped};

use chains::{entry, word};
use language::format::{EDGE_TARGET, NEXT};
use tables::edges;

// Whether region r of the callee and u of the caller are a pair to be mapped: neither is 0, and r has a place in the table of images.
fn is_pair(r: usize, u: usize, size: usize) -> bool
    ensures { (result ≡ true → (r ≡ 0 → ⊥) × (u ≡ 0 → ⊥) × (r < size)) × (result ≡ false → (r ≡ 0) ⊎ ((u ≡ 0) ⊎ (size ≤ r))) }
{
    if r == 0 {
        return false;
    }
    if u == 0 {
        return false;
    }
    r < size
}

// Gives region r of the callee the image u, and so on along equal edges. False where a region has two images.
#[cycle(map_edges_map_region)]
pub fn map_region(
    file: &[u8],
    own: &[u64],
    callee: &[u64],
    r: usize,
    u: usize,
    images: &mut [usize],
) -> bool
    requires formed { Formed file.now }
    requires standing { Standing file.now own.now }
    requires standing_2 { Standing file.now callee.now }
    ensures grown { Grown images.old images.new }
    ensures region_mapped { RegionMapped file.now own.now callee.now r u images.old result images.new }
{
    if !is_pair(r, u, images.len()) {
        return true;
    }
    let v = images[r];
    if v != 0 {
        return v == u;
    }
    images[r] = u;
    let i = edges(callee, r);
    let j = edges(own, u);
    map_edges(file, own, callee, i, j, images)
}

// The same for the targets of two chains of edges, side by side. A pair that the table has already asks for nothing.
#[cycle(map_edges_map_region)]
fn map_edges(
    file: &[u8],
    own: &[u64],
    callee: &[u64],
    from: usize,
    onto: usize,
    images: &mut [usize],
) -> bool
    requires formed { Formed file.now }
    requires standing { Standing file.now own.now }
    requires standing_2 { Standing file.now callee.now }
    requires stands { Stands file.now File.edges from }
    requires stands_2 { Stands file.now File.edges onto }
    ensures grown { Grown images.old images.new }
    ensures edges_mapped { EdgesMapped file.now own.now callee.now from onto images.old result images.new }
{
    let mut i = from;
    let mut j = onto;
    while i != 0 {
        if j == 0 {
            return true;
        }
        let r = word(file, i, EDGE_TARGET);
        let u = word(file, j, EDGE_TARGET);
        if entry(images, r) != u {
            if !map_region(file, own, callee, r, u, images) {
                return false;
            }
        }
        i = word(file, i, NEXT);
        j = word(file, j, NEXT);
    }
    true
}
