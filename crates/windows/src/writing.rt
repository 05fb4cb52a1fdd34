// Writing the parts of a window: its variables and regions, and runs of words.
ghost use Rattle.std.specs.Prelude.{◌≡◌, ◌+◌, ◌*◌, ◌≤◌, ◌<◌, length};
ghost use Rattle.language.specs.File;
ghost use Rattle.language.specs.Format.{places};
ghost use Rattle.chains.specs.Formed.{Formed, Stands};
ghost use Rattle.chains.specs.Records.{chain_records};
ghost use Rattle.windows.specs.Parts.{HomeReach, RegionsListed, VariablesListed};
ghost use Rattle.windows.specs.Storing.{StoredWords};

use crate::reaching::targets_of;
use chains::word;
use language::format::{NEXT, PLACES, REGION_EDGES, VARIABLE_REGION};
use sets::Set;

// Writes the first edge of each region of the chain at record first from place `from` on, and where its edges lead into `targets`, from
// place 1 on. Returns how many regions there are.
pub fn list_regions(
    file: &[u8],
    first: usize,
    table: &mut [u64],
    from: usize,
    targets: &mut [u64],
) -> usize
    requires formed { Formed file.now }
    requires stands { Stands file.now File.regions first }
    requires first_in_bounds { from + length (chain_records file.now first) ≤ length table.old }
    requires first_in_bounds_2 { length (chain_records file.now first) < length targets.old }
    ensures value { result ≡ length (chain_records file.now first) }
    ensures regions_listed { RegionsListed file.now first table.old from result table.new targets.new }
{
    let mut i = first;
    let mut n = 0;
    while i != 0 {
        let start = word(file, i, REGION_EDGES);
        table[from + n] = start as u64;
        targets[n + 1] = targets_of(file, start).stored();
        n += 1;
        i = word(file, i, NEXT);
    }
    n
}

// What a variable in region home reaches, by a table of reaches; region 0 is none.
fn home_reach(reaches: &[u64], home: usize) -> Set
    requires { places ≡ length reaches.now }
    ensures { HomeReach reaches.now home result }
{
    if home == 0 {
        return Set::EMPTY;
    }
    if home < PLACES {
        return Set::loaded(reaches[home]);
    }
    Set::EMPTY
}

// Writes the region and the reach of each variable of the chain at record first from place `from` on.
pub fn list_variables(file: &[u8], first: usize, table: &mut [u64], from: usize, reaches: &[u64])
    requires formed { Formed file.now }
    requires stands { Stands file.now File.variables first }
    requires first_in_bounds { from + 2 * length (chain_records file.now first) ≤ length table.old }
    requires places_value { places ≡ length reaches.now }
    ensures { VariablesListed file.now first reaches.now table.old from (length (chain_records file.now first)) table.new }
{
    let mut i = first;
    let mut n: usize = 0;
    while i != 0 {
        let home = word(file, i, VARIABLE_REGION);
        table[from + 2 * n] = home as u64;
        table[from + 2 * n + 1] = home_reach(reaches, home).stored();
        n += 1;
        i = word(file, i, NEXT);
    }
}

// Stores words from place `at` on.
pub fn store(table: &mut [u64], at: usize, words: &[u64])
    requires { at + length words.now ≤ length table.old }
    ensures { StoredWords table.old at words.now (length words.now) table.new }
{
    table[at..at + words.len()].copy_from_slice(words);
}
