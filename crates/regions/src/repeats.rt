// Calls that repeat one another.
ghost use Rattle.std.specs.Prelude.{◌≡◌, true, get_or};
ghost use Rattle.language.specs.File;
ghost use Rattle.chains.specs.Formed.{Formed, Stands};
ghost use Rattle.regions.specs.CallMap.{SameHomes};
ghost use Rattle.regions.specs.Repeats.{Repeats};

use chains::word;
use language::format;
use tables::home;

// Whether the arguments in the chains at records a and b are in the same regions.
fn same_homes(file: &[u8], own: &[u64], a: usize, b: usize) -> bool
    requires formed { Formed file.now }
    requires stands { Stands file.now File.arguments a × Stands file.now File.arguments b }
    ensures { result ≡ true → SameHomes file.now own.now a b }
{
    let mut x = a;
    let mut y = b;
    while x != 0 {
        if y == 0 {
            return false;
        }
        let u = home(own, word(file, x, format::ARGUMENT_VARIABLE));
        let v = home(own, word(file, y, format::ARGUMENT_VARIABLE));
        if u != v {
            return false;
        }
        x = word(file, x, format::NEXT);
        y = word(file, y, format::NEXT);
    }
    y == 0
}

// The procedure that record i belongs to.
pub fn owner_of(owners: &[u16], i: usize) -> usize
    ensures { result ≡ get_or owners.now i 0 }
{
    if i < owners.len() {
        usize::from(owners[i])
    } else {
        0
    }
}

// Whether records j and i are calls of one procedure from one procedure with arguments in the same regions, by its window. They may be any numbers.
pub fn repeats(file: &[u8], own: &[u64], owners: &[u16], j: usize, i: usize) -> bool
    requires { Formed file.now }
    ensures { result ≡ true → Repeats file.now own.now owners.now j i }
{
    if records::word(file, i, format::KIND) != format::CALL {
        return false;
    }
    if records::word(file, j, format::KIND) != format::CALL {
        return false;
    }
    if owner_of(owners, i) != owner_of(owners, j) {
        return false;
    }
    if word(file, i, format::CALL_PROCEDURE) != word(file, j, format::CALL_PROCEDURE) {
        return false;
    }
    let a = word(file, i, format::CALL_ARGUMENTS);
    same_homes(file, own, a, word(file, j, format::CALL_ARGUMENTS))
}
