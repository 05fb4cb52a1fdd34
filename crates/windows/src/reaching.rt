// Reach along edges: a region's direct targets, and the regions that it leads to by way of others.
ghost use Rattle.std.specs.Prelude.{◌≡◌, false, ◌≤◌, ◌<◌, length};
ghost use Rattle.sets.specs.Sets.{member, empty_set, single, ◌∪◌, loaded};
ghost use Rattle.sets.specs.Members.{set_of};
ghost use Rattle.language.specs.File.{edges};
ghost use Rattle.language.specs.Regions.{targets_in};
ghost use Rattle.language.specs.Format.{places};
ghost use Rattle.chains.specs.Formed.{Formed, Stands, edges_at};
ghost use Rattle.windows.specs.Targets.{RegionReach, set_at};
ghost use Rattle.windows.specs.Reading.{ReadJust};
ghost use Rattle.windows.specs.Closing.{Closing};

use chains::word;
use language::format::{EDGE_TARGET, NEXT, PLACES};
use sets::Set;

// Where the edges of the chain at record start lead.
pub fn targets_of(file: &[u8], start: usize) -> Set
    requires formed { Formed file.now }
    requires stands { Stands file.now edges start }
    ensures { result ≡ set_of (targets_in (edges_at file.now start)) }
{
    let mut found = Set::EMPTY;
    let mut i = start;
    while i != 0 {
        found = found.union(Set::of(word(file, i, EDGE_TARGET)));
        i = word(file, i, NEXT);
    }
    found
}

// Reads the edges of region u. `read` has the regions whose edges have been read: u is not among them before, and is among them afterwards.
fn read_edges(targets: &[u64], read: &mut u64, u: usize) -> Set
    requires places_value { places ≡ length targets.now }
    requires le_u { 1 ≤ u }
    requires u_lt_places { u < places }
    requires u_value { member (loaded read.old) u ≡ false }
    ensures value { result ≡ set_at targets.now u }
    ensures read_after { loaded read.new ≡ loaded read.old ∪ single u }
{
    let before = Set::loaded(*read);
    *read = before.union(Set::of(u)).stored();
    Set::loaded(targets[u])
}

// The regions that edges lead to from region r, with r, by a table of where each region's edges lead: a loop that adds regions
// until none is new. The edges of each of them are read once, and no others: `read` has none before, and just these afterwards.
pub fn reach_from(targets: &[u64], r: usize, read: &mut u64) -> Set
    requires places_value { places ≡ length targets.now }
    requires read_value { loaded read.old ≡ empty_set }
    ensures region_reach { RegionReach targets.now r result }
    ensures read_just { ReadJust (loaded read.new) result }
{
    let mut found = Set::of(r);
    let mut u = found.after(0);
    // What is read adds to what is left, so this is no walk over the members of a set.
    while u < PLACES {
        found = found.union(read_edges(targets, read, u));
        u = found.difference(Set::loaded(*read)).after(0);
    }
    found
}

// Puts what each region reaches in the place of where its edges lead, for the regions 1 to n.
pub fn list_reaches(targets: &mut [u64], n: usize)
    requires places_value { places ≡ length targets.old }
    requires n_lt_places { n < places }
    ensures { Closing targets.old n targets.new }
{
    for r in 1..=n {
        let mut read = 0;
        let reach = reach_from(targets, r, &mut read);
        targets[r] = reach.stored();
    }
}
