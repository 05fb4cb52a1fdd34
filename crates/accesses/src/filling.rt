// What every step and every arm reads and gives, worked out once, into the rows.
ghost use Rattle.std.specs.Prelude.{◌≡◌, true, ◌<◌, ◌≤◌, length};
ghost use Rattle.language.specs.File.{record_count};
ghost use Rattle.language.specs.Typing.{typing_ok};
ghost use Rattle.language.specs.Answers.{program};
ghost use Rattle.tables.specs.TablePlaces.{row_words};
ghost use Rattle.chains.specs.Formed.{Formed};
ghost use Rattle.tables.specs.Window.{FileTable};
ghost use Rattle.tables.specs.Filled.{Accessed};
ghost use Rattle.accesses.specs.Noting.{AllNoted, RowsKept, RowListed};

use crate::calls::call_access;
use crate::steps::{
    arm_access, assign_access, construct_access, literal_access, no_access, print_access,
    sum_access, test_access,
};
use chains::{chain_length, record_count};
use language::format::{
    ARM, ASSIGN, CALL, CONSTRUCT, CREATE, HEADER_PROCEDURES, KIND, LITERAL, PRINT, REMOVE, SUM,
    TEST,
};
use records::word;
use tables::{ROWS, TABLE, put_access};

// Fills the rows of steps and arms: what they read and give, and whether they give no variable twice.
pub fn list_accesses(file: &[u8], table: &[u64; TABLE], rows: &mut [u64; ROWS])
    requires formed { Formed file.now }
    requires file_table { FileTable file.now table.now }
    requires row_words_in_bounds { row_words ≤ length rows.old }
    requires file_value { typing_ok (program file.now) ≡ true }
    ensures accessed { Accessed file.now rows.new }
    ensures all_noted { AllNoted file.now rows.new }
    ensures rows_kept { RowsKept file.now rows.old rows.new }
{
    let procedures = chain_length(file, word(file, 0, HEADER_PROCEDURES));
    let count = record_count(file);
    for i in 1..count {
        list_access(file, table, procedures, i, rows);
    }
}

// Fills the row of record i, where it is a step or an arm. There are that many procedures.
#[tactic(auto, using(crate::proofs::NotingLaws::has_row))]
fn list_access(
    file: &[u8],
    table: &[u64; TABLE],
    procedures: usize,
    i: usize,
    rows: &mut [u64; ROWS],
)
    requires formed { Formed file.now }
    requires file_table { FileTable file.now table.now }
    requires procedures_value { procedures ≡ length (program file.now).procedures }
    requires i_bound { (i < record_count file.now) × (row_words ≤ length rows.old) }
    requires file_value { typing_ok (program file.now) ≡ true }
    ensures { RowListed file.now i rows.old rows.new }
{
    match word(file, i, KIND) {
        LITERAL => put_access(rows, i, literal_access(file, i)),
        SUM => put_access(rows, i, sum_access(file, i)),
        ASSIGN => put_access(rows, i, assign_access(file, i)),
        CONSTRUCT => put_access(rows, i, construct_access(file, i)),
        ARM => put_access(rows, i, arm_access(file, i)),
        CALL => put_access(rows, i, call_access(file, table, procedures, i)),
        PRINT => put_access(rows, i, print_access(file, i)),
        CREATE => put_access(rows, i, no_access()),
        REMOVE => put_access(rows, i, no_access()),
        TEST => put_access(rows, i, test_access(file, i)),
        _ => {}
    }
}
