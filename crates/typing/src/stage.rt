// Number 3 for a whole file: what it declares, then one procedure at a time what it declares and its goals.
ghost use Rattle.std.specs.Prelude.{◌≡◌, true};
ghost use Rattle.language.specs.Lists.{all};
ghost use Rattle.language.specs.File.{procedures};
ghost use Rattle.language.specs.Answers.{program};
ghost use Rattle.language.specs.Typing.{types_ok, typing_ok, procedure_ok};
ghost use Rattle.chains.specs.Formed.{Formed, Stands, procedures_at};
ghost use Rattle.declarations.specs.Declares.{Declares};
ghost use Rattle.typing.specs.Procedures.{procedures_ok, procedure_at_record};

use crate::walk::goals;
use chains::{chain_length, word};
use declarations::{
    FILE_PLACES, OWN_PLACES, counts_ok, list_file, list_own, signature_ok, types_ok,
};
use language::format::{HEADER_PROCEDURES, MAX_PROCEDURES, NEXT, PROCEDURE_GOALS};

// The procedure of record i.
fn procedure_ok(file: &[u8], table: &[u16; FILE_PLACES], i: usize) -> bool
    requires declares { Declares file.now table.now }
    requires stands { Stands file.now procedures i × (i ≡ 0 → ⊥) }
    ensures { result ≡ procedure_ok (program file.now) (procedure_at_record file.now i) }
{
    if !counts_ok(file, i) {
        return false;
    }
    let mut own = [0; OWN_PLACES];
    list_own(file, i, &mut own);
    if !signature_ok(file, table, &own) {
        return false;
    }
    goals(file, table, &own, word(file, i, PROCEDURE_GOALS))
}

// The procedures from record start on.
fn each_procedure_ok(file: &[u8], table: &[u16; FILE_PLACES], start: usize) -> bool
    requires declares { Declares file.now table.now }
    requires stands { Stands file.now procedures start }
    ensures { result ≡ all (procedure_ok (program file.now)) (procedures_at file.now start) }
{
    let mut i = start;
    while i != 0 {
        if !procedure_ok(file, table, i) {
            return false;
        }
        i = word(file, i, NEXT);
    }
    true
}

// The procedures, of a file whose types are in order.
fn procedures_ok(file: &[u8]) -> bool
    requires formed { Formed file.now }
    requires file_value { types_ok (program file.now).types ≡ true }
    ensures { result ≡ procedures_ok (program file.now) }
{
    let first = word(file, 0, HEADER_PROCEDURES);
    let count = chain_length(file, first);
    if count == 0 {
        return false;
    }
    if MAX_PROCEDURES < count {
        return false;
    }
    let mut table = [0; FILE_PLACES];
    list_file(file, &mut table);
    each_procedure_ok(file, &table, first)
}

// Whether number 3 does not apply to a file that passes numbers 1 and 2.
pub fn typing_ok(file: &[u8]) -> bool
    requires { Formed file.now }
    ensures { result ≡ typing_ok (program file.now) }
{
    if !types_ok(file) {
        return false;
    }
    procedures_ok(file)
}
