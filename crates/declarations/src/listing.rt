// The records of chains, listed in a table.
ghost use Rattle.std.specs.Prelude.{◌≡◌, true, ℕ, ◌+◌, ◌≤◌, ◌<◌, length, get_or, replicate};
ghost use Rattle.language.specs.Format.{max_procedures};
ghost use Rattle.language.specs.File.{functors, procedures, record_count};
ghost use Rattle.language.specs.Typing.{types_ok};
ghost use Rattle.language.specs.Answers.{program};
ghost use Rattle.chains.specs.Formed.{Formed, Stands};
ghost use Rattle.chains.specs.Records.{chain_records};
ghost use Rattle.declarations.specs.DeclaredPlaces.{file_places, functor_places, own_places};
ghost use Rattle.declarations.specs.Listing.{Lists};
ghost use Rattle.declarations.specs.Parameters.{link_of, Linked};
ghost use Rattle.declarations.specs.Filling.{Functors};
ghost use Rattle.declarations.specs.Regioned.{regioned_start};
ghost use Rattle.declarations.specs.Declares.{Declares};
ghost use Rattle.declarations.specs.Own.{signature_at, few_declared, OwnOf};

use crate::places::{FILE_PLACES, FUNCTOR_PLACES, OWN_PLACES, PROCEDURE_PLACES, REGION_PLACES};
use chains::{record_count, word};
use language::format::{
    FUNCTOR_ARITY, HEADER_PROCEDURES, HEADER_TYPES, KIND, MAX_FUNCTORS, NEXT, PROCEDURE_REGIONS,
    PROCEDURE_VARIABLES, TYPE_FUNCTORS, VARIABLE, VARIABLE_MODE,
};
use records::narrow;

// Lists the chain at record start in the places from `at` on.
fn list_records(file: &[u8], start: usize, at: usize, table: &mut [u16])
    requires formed { Formed file.now }
    requires start_bound { start < record_count file.now }
    requires start_in_bounds { at + length (chain_records file.now start) ≤ length table.old }
    ensures { Lists file.now start at table.old table.new }
{
    let mut i = start;
    let mut n = 0;
    while i != 0 {
        table[at + n] = narrow(i);
        n += 1;
        i = word(file, i, NEXT);
    }
}

// The chain of functors at record start where one of them has arguments, 0 where none has: a type of constants has no regions.
fn regioned_start(file: &[u8], start: usize) -> u16
    requires formed { Formed file.now }
    requires stands { Stands file.now functors start }
    ensures { result ≡ regioned_start file.now start }
{
    let mut i = start;
    while i != 0 {
        if word(file, i, FUNCTOR_ARITY) != 0 {
            return narrow(start);
        }
        i = word(file, i, NEXT);
    }
    0
}

// The functors of every type, and the first one of each type with regions.
fn list_functors(file: &[u8], table: &mut [u16; FILE_PLACES])
    requires formed { Formed file.now }
    requires file_value { types_ok (program file.now).types ≡ true }
    requires file_places_in_bounds { (file_places ≤ length table.old) × (get_or table.old 0 0 ≡ 0) × ((k : ℕ) → functor_places ≤ k → get_or table.old k 0 ≡ 0) }
    ensures { Functors file.now table.old table.new }
{
    let mut i = word(file, 0, HEADER_TYPES);
    let mut t = 0;
    while i != 0 {
        t += 1;
        let start = word(file, i, TYPE_FUNCTORS);
        list_records(file, start, FUNCTOR_PLACES + MAX_FUNCTORS * t, table);
        table[start] = regioned_start(file, start);
        i = word(file, i, NEXT);
    }
}

// The first in or out variable from the variable at record i on, by the links of the records behind.
fn link(file: &[u8], table: &[u16; FILE_PLACES], i: usize) -> u16
    requires formed { Formed file.now }
    requires i_nonzero { (0 < i) × (i < record_count file.now) }
    ensures { result ≡ link_of file.now table.now i }
{
    if word(file, i, VARIABLE_MODE) == 0 {
        return table[word(file, i, NEXT)];
    }
    narrow(i)
}

// For each variable the first in or out variable from there on, from the last record to the first: a chain goes up.
fn list_parameters(file: &[u8], table: &mut [u16; FILE_PLACES])
    requires formed { Formed file.now }
    requires file_places_in_bounds { (file_places ≤ length table.old) × (get_or table.old 0 0 ≡ 0) }
    ensures { Linked file.now table.old table.new 1 }
{
    for i in (1..record_count(file)).rev() {
        if word(file, i, KIND) == VARIABLE {
            table[i] = link(file, table, i);
        }
    }
}

// Lists all that a file declares that has types in order and no more procedures than there are places. The table is blank before.
pub fn list_file(file: &[u8], table: &mut [u16; FILE_PLACES])
    requires formed { Formed file.now }
    requires file_value { (types_ok (program file.now).types ≡ true) × (length (program file.now).procedures ≤ max_procedures) }
    requires table_value { table.old ≡ replicate file_places 0 }
    ensures { Declares file.now table.new }
{
    let first = word(file, 0, HEADER_PROCEDURES);
    list_records(file, first, PROCEDURE_PLACES, table);
    list_functors(file, table);
    list_parameters(file, table);
}

// Lists the variables and the regions of the procedure of record i, which has no more of either than there are places. The table is blank before.
pub fn list_own(file: &[u8], i: usize, own: &mut [u16; OWN_PLACES])
    requires formed { Formed file.now }
    requires stands { Stands file.now procedures i × (i ≡ 0 → ⊥) }
    requires i_value { (few_declared (signature_at file.now i) ≡ true) × (own.old ≡ replicate own_places 0) }
    ensures { OwnOf file.now own.new i }
{
    list_records(file, word(file, i, PROCEDURE_VARIABLES), 1, own);
    list_records(
        file,
        word(file, i, PROCEDURE_REGIONS),
        REGION_PLACES + 1,
        own,
    );
}
