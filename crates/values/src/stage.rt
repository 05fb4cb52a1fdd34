// Number 4 of a whole file. The rows are filled on the way.
ghost use Rattle.std.specs.Prelude.{◌≡◌, true, ◌<◌, ◌≤◌, length};
ghost use Rattle.language.specs.Lists.{all};
ghost use Rattle.language.specs.Program.{procedure_at};
ghost use Rattle.language.specs.Typing.{typing_ok};
ghost use Rattle.language.specs.Values.{procedure_values, values_ok};
ghost use Rattle.language.specs.Answers.{program};
ghost use Rattle.tables.specs.TablePlaces.{row_words};
ghost use Rattle.chains.specs.Formed.{Formed};
ghost use Rattle.tables.specs.Window.{FileTable};
ghost use Rattle.accesses.specs.Noting.{AllNoted, RowsKept};

use crate::carried::Valuation;
use crate::declared::all_local;
use crate::walk::goals;
use accesses::list_accesses;
use chains::{chain_length, field};
use language::format::{HEADER_PROCEDURES, PROCEDURE_VARIABLES};
use records::word;
use tables::{BODY, INS, OUTS, ROWS, TABLE, set_at, word_at};

// Number 4. Fills the rows of steps and arms, whatever the answer.
pub fn values_ok(file: &[u8], table: &[u64; TABLE], rows: &mut [u64; ROWS]) -> bool
    requires formed { Formed file.now }
    requires file_value { typing_ok (program file.now) ≡ true }
    requires file_table { FileTable file.now table.now }
    requires row_words_in_bounds { row_words ≤ length rows.old }
    ensures value { result ≡ values_ok (program file.now) }
    ensures all_noted { AllNoted file.now rows.new }
    ensures rows_kept { RowsKept file.now rows.old rows.new }
{
    list_accesses(file, table, rows);
    let first = word(file, 0, HEADER_PROCEDURES);
    if !all_local(file, field(file, first, PROCEDURE_VARIABLES)) {
        return false;
    }
    procedures_ok(file, table, rows)
}

// Whether every procedure passes.
fn procedures_ok(file: &[u8], table: &[u64; TABLE], rows: &[u64; ROWS]) -> bool
    requires formed { Formed file.now }
    requires file_value { typing_ok (program file.now) ≡ true }
    requires file_table { FileTable file.now table.now }
    requires all_noted { AllNoted file.now rows.now }
    ensures { result ≡ all (procedure_values (program file.now)) (program file.now).procedures }
{
    let count = chain_length(file, word(file, 0, HEADER_PROCEDURES));
    for q in 0..count {
        if !procedure_ok(file, table, rows, q) {
            return false;
        }
    }
    true
}

// Whether procedure q passes.
fn procedure_ok(file: &[u8], table: &[u64; TABLE], rows: &[u64; ROWS], q: usize) -> bool
    requires formed { Formed file.now }
    requires file_value { typing_ok (program file.now) ≡ true }
    requires file_table { FileTable file.now table.now }
    requires all_noted { AllNoted file.now rows.now }
    requires q_in_bounds { q < length (program file.now).procedures }
    ensures { result ≡ procedure_values (program file.now) (procedure_at (program file.now) q) }
{
    let window = word_at(table, q);
    let ins = set_at(table, window + INS);
    let body = word_at(table, window + BODY);
    let outs = set_at(table, window + OUTS);
    let before = Valuation {
        every: ins,
        some: ins,
    };
    let Some(behind) = goals(file, rows, before, body) else {
        return false;
    };
    outs.is_subset(behind.every)
}
