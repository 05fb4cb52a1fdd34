// The windows of all procedures.
ghost use Rattle.std.specs.Prelude.{◌≡◌, true, ◌+◌, ◌≤◌, length};
ghost use Rattle.language.specs.File;
ghost use Rattle.language.specs.Typing.{typing_ok};
ghost use Rattle.language.specs.Lifetimes.{declared_classes_ok};
ghost use Rattle.language.specs.Answers.{program};
ghost use Rattle.language.specs.Format.{places};
ghost use Rattle.tables.specs.TablePlaces.{file_words, head_size};
ghost use Rattle.chains.specs.Formed.{Formed, Stands};
ghost use Rattle.tables.specs.Window.{FileTable};
ghost use Rattle.windows.specs.Storing.{StoredWords};
ghost use Rattle.windows.specs.Procedure.{header_words, WindowRoom, ListedAt};
ghost use Rattle.windows.specs.Listing.{OnlyWindows};

use crate::reaching::list_reaches;
use crate::sorting::classes_of;
use crate::writing::{list_regions, list_variables, store};
use crate::{Classes, Counts, Listed};
use chains::{chain_length, word};
use language::format::{
    HEADER_PROCEDURES, MAX_PROCEDURES, NEXT, PLACES, PROCEDURE_GOALS, PROCEDURE_REGIONS,
    PROCEDURE_VARIABLES,
};
use tables::HEAD;

// Stores the first words of a window.
fn put_header(table: &mut [u64], at: usize, n: Counts, c: Classes)
    requires { at + head_size ≤ length table.old }
    ensures { StoredWords table.old at (header_words n c) head_size table.new }
{
    let ins = c.ins;
    let outs = c.outs;
    let born = c.born;
    let dead = c.dead;
    let kept = c.kept;
    let passed = c.passed;
    let words = [
        n.variables as u64,
        n.regions as u64,
        n.body as u64,
        ins.stored(),
        outs.stored(),
        born.stored(),
        dead.stored(),
        kept.stored(),
        passed.stored(),
        n.first as u64,
    ];
    store(table, at, &words);
}

// Fills the window of the procedure at record i, from place `at` on. Targets is room for where the edges
// of its regions lead, and then for what they reach.
fn list_procedure(
    file: &[u8],
    i: usize,
    table: &mut [u64],
    at: usize,
    targets: &mut [u64],
) -> Listed
    requires formed { Formed file.now }
    requires stands { Stands file.now File.procedures i × (i ≡ 0 → ⊥) }
    requires window_room { WindowRoom file.now i at (length table.old) }
    requires places_value { places ≡ length targets.old }
    ensures { ListedAt file.now i at table.old result table.new }
{
    let v = word(file, i, PROCEDURE_VARIABLES);
    let r = word(file, i, PROCEDURE_REGIONS);
    let g = word(file, i, PROCEDURE_GOALS);
    let variables = chain_length(file, v);
    let regions = list_regions(file, r, table, at + HEAD + 2 * variables, targets);
    list_reaches(targets, regions);
    table[at] = variables as u64;
    list_variables(file, v, table, at + HEAD, targets);
    let c = classes_of(file, v, r, table, at);
    let n = Counts {
        variables,
        regions,
        body: g,
        first: v,
    };
    put_header(table, at, n, c);
    Listed {
        size: HEAD + 2 * variables + regions,
        right: c.right(),
    }
}

// Fills the file's table, and tells whether every procedure's classes are right: number 7 for every program. The starts of
// procedures that the file has not, and what stands behind the last window, are as they were.
pub fn list_procedures(file: &[u8], table: &mut [u64]) -> bool
    requires formed { Formed file.now }
    requires file_value { typing_ok (program file.now) ≡ true }
    requires file_words_in_bounds { file_words ≤ length table.old }
    ensures value { result ≡ declared_classes_ok (program file.now) }
    ensures file_table { FileTable file.now table.new }
    ensures only_windows { OnlyWindows file.now table.old table.new }
{
    let mut targets = [0; PLACES];
    let mut right = true;
    let mut i = word(file, 0, HEADER_PROCEDURES);
    let mut q = 0;
    let mut at = MAX_PROCEDURES;
    while i != 0 {
        table[q] = at as u64;
        let one = list_procedure(file, i, table, at, &mut targets);
        right = right & one.right;
        at += one.size;
        q += 1;
        i = word(file, i, NEXT);
    }
    right
}
