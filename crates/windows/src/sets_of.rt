// The sets that a procedure's declarations say: its in and out variables, its born and dead regions.
ghost use Rattle.std.specs.Prelude.{◌≡◌, ◌<◌};
ghost use Rattle.sets.specs.Members.{set_of};
ghost use Rattle.language.specs.File.{variables, regions, record_count};
ghost use Rattle.records.specs.Sizes.{record_words};
ghost use Rattle.chains.specs.Formed.{Formed, Stands, variables_at, regions_at};
ghost use Rattle.windows.specs.Modes.{of_mode};
ghost use Rattle.windows.specs.Numbered.{numbers_with};
ghost use Rattle.windows.specs.Sorting.{of_class_in};

use chains::word;
use language::format::{NEXT, REGION_CLASS, VARIABLE_MODE};
use sets::Set;

// The numbers of the records in the chain at record start that have v in word k.
fn numbers_with(file: &[u8], start: usize, k: usize, v: usize) -> Set
    requires formed { Formed file.now }
    requires start_bound { start < record_count file.now }
    requires k_bound { k < record_words }
    ensures { result ≡ set_of (numbers_with file.now start k v) }
{
    let mut found = Set::EMPTY;
    let mut i = start;
    let mut n = 1;
    while i != 0 {
        if word(file, i, k) == v {
            found = found.union(Set::of(n));
        }
        i = word(file, i, NEXT);
        n += 1;
    }
    found
}

// The variables of a mode, in or out, among those from record start on.
pub fn variables_in(file: &[u8], start: usize, mode: usize) -> Set
    requires formed { Formed file.now }
    requires stands { Stands file.now variables start }
    requires mode_nonzero { 0 < mode }
    ensures { result ≡ set_of (of_mode mode (variables_at file.now start)) }
{
    numbers_with(file, start, VARIABLE_MODE, mode)
}

// The regions of a class among those from record start on.
pub fn of_class(file: &[u8], start: usize, class: usize) -> Set
    requires formed { Formed file.now }
    requires stands { Stands file.now regions start }
    ensures { result ≡ set_of (of_class_in class (regions_at file.now start)) }
{
    numbers_with(file, start, REGION_CLASS, class)
}
