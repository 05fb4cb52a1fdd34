// What a step or an arm reads and gives.
ghost use Rattle.std.specs.Prelude.{◌≡◌};
ghost use Rattle.language.specs.Format.{goal_x, sum_y, sum_z, assign_y, print_y, test_y, test_z};
ghost use Rattle.language.specs.File.{word};
ghost use Rattle.chains.specs.Parts.{four_at};
ghost use Rattle.accesses.specs.Gathering.{no_access, read_in, given_in, four_read, four_given};

use language::format::{ASSIGN_Y, GOAL_X, PRINT_Y, SUM_Y, SUM_Z, TERM_ARGUMENTS, TEST_Y, TEST_Z};
use records::word;
use sets::Set;
use tables::Access;

// Nothing yet.
pub fn no_access() -> Access
    ensures { result ≡ no_access }
{
    Access {
        reads: Set::EMPTY,
        gives: Set::EMPTY,
        once: true,
    }
}

// y is read too.
pub fn read(a: Access, y: usize) -> Access
    ensures { result ≡ read_in a y }
{
    let reads = a.reads;
    let gives = a.gives;
    Access {
        reads: reads.union(Set::of(y)),
        gives,
        once: a.once,
    }
}

// x is given a value too.
pub fn give(a: Access, x: usize) -> Access
    ensures { result ≡ given_in a x }
{
    let reads = a.reads;
    let gives = a.gives;
    let again = gives.has(x);
    Access {
        reads,
        gives: gives.union(Set::of(x)),
        once: a.once & !again,
    }
}

// A sum reads y and z and gives x.
pub fn sum_access(file: &[u8], i: usize) -> Access
    ensures { result ≡ given_in (read_in (read_in no_access (word file.now i sum_y)) (word file.now i sum_z)) (word file.now i goal_x) }
{
    let y = word(file, i, SUM_Y);
    let z = word(file, i, SUM_Z);
    give(read(read(no_access(), y), z), word(file, i, GOAL_X))
}

// An assign reads y and gives x.
pub fn assign_access(file: &[u8], i: usize) -> Access
    ensures { result ≡ given_in (read_in no_access (word file.now i assign_y)) (word file.now i goal_x) }
{
    let y = word(file, i, ASSIGN_Y);
    give(read(no_access(), y), word(file, i, GOAL_X))
}

// A construct reads its arguments and gives x.
pub fn construct_access(file: &[u8], i: usize) -> Access
    ensures { result ≡ given_in (four_read (four_at file.now i)) (word file.now i goal_x) }
{
    let a1 = read(no_access(), word(file, i, TERM_ARGUMENTS));
    let a2 = read(a1, word(file, i, TERM_ARGUMENTS + 1));
    let a3 = read(a2, word(file, i, TERM_ARGUMENTS + 2));
    let a4 = read(a3, word(file, i, TERM_ARGUMENTS + 3));
    give(a4, word(file, i, GOAL_X))
}

// An arm gives its arguments.
pub fn arm_access(file: &[u8], i: usize) -> Access
    ensures { result ≡ four_given (four_at file.now i) }
{
    let a1 = give(no_access(), word(file, i, TERM_ARGUMENTS));
    let a2 = give(a1, word(file, i, TERM_ARGUMENTS + 1));
    let a3 = give(a2, word(file, i, TERM_ARGUMENTS + 2));
    give(a3, word(file, i, TERM_ARGUMENTS + 3))
}

// A literal gives x.
pub fn literal_access(file: &[u8], i: usize) -> Access
    ensures { result ≡ given_in no_access (word file.now i goal_x) }
{
    give(no_access(), word(file, i, GOAL_X))
}

// A print reads y.
pub fn print_access(file: &[u8], i: usize) -> Access
    ensures { result ≡ read_in no_access (word file.now i print_y) }
{
    read(no_access(), word(file, i, PRINT_Y))
}

// A test reads y and z.
pub fn test_access(file: &[u8], i: usize) -> Access
    ensures { result ≡ read_in (read_in no_access (word file.now i test_y)) (word file.now i test_z) }
{
    let y = word(file, i, TEST_Y);
    read(read(no_access(), y), word(file, i, TEST_Z))
}
