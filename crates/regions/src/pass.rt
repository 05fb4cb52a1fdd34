// Number 5 of a file, in one pass over its records. What each step does to regions goes into its row on the way.
ghost use Rattle.std.specs.Prelude.{◌≡◌, true, ◌≤◌, ◌<◌, length};
ghost use Rattle.language.specs.Format.{max_records};
ghost use Rattle.language.specs.File.{record_count};
ghost use Rattle.language.specs.Regions.{regions_ok};
ghost use Rattle.language.specs.Answers.{program};
ghost use Rattle.tables.specs.TablePlaces.{row_words};
ghost use Rattle.chains.specs.Shapes.{IsCall};
ghost use Rattle.owners.specs.Everywhere.{record_test};
ghost use Rattle.tables.specs.Rows.{effect_in, put_effect};
ghost use Rattle.regions.specs.Firsts.{Firsts};
ghost use Rattle.regions.specs.Single.{agrees};
ghost use Rattle.regions.specs.Here.{Given, Here};
ghost use Rattle.regions.specs.Effects.{SomeStep, region_effect};
ghost use Rattle.regions.specs.CallEffect.{CallHere};
ghost use Rattle.regions.specs.Rowed.{Before, Rowed, AfterPass};

use crate::calls::map_call;
use crate::effects::{region_effect, step_effect};
use crate::images::image_effect;
use crate::repeats::{owner_of, repeats};
use crate::single::record_ok;
use chains::record_count;
use language::format;
use language::format::PLACES;
use records::word;
use tables::{Effect, ROWS, bears_at, ends_at, marked, needs_at, put_effect, start_of};

// The call at record i of the procedure with the window callee: it maps no region two ways.
fn call_ok(file: &[u8], own: &[u64], callee: &[u64], i: usize, rows: &mut [u64; ROWS]) -> bool
    requires call_here { CallHere file.now own.now callee.now i }
    requires row_words_in_bounds { row_words ≤ length rows.old }
    ensures value { result ≡ record_test (agrees file.now) file.now i }
    ensures rowed { Rowed file.now i rows.old result rows.new }
{
    let mut images = [0; PLACES];
    let arguments = word(file, i, format::CALL_ARGUMENTS);
    if !map_call(file, own, callee, arguments, &mut images) {
        return false;
    }
    put_effect(rows, i, image_effect(&images, callee));
    true
}

// The step at record i, no call, of the procedure with the window own.
fn row_ok(
    file: &[u8],
    own: &[u64],
    i: usize,
    rows: &mut [u64; ROWS],
    firsts: &mut [usize; PLACES],
) -> bool
    requires here { Here file.now own.now i }
    requires fact { (IsCall file.now i → ⊥) × SomeStep file.now i }
    requires row_words_in_bounds { row_words ≤ length rows.old }
    requires firsts { Firsts file.now firsts.old }
    ensures value { result ≡ record_test (agrees file.now) file.now i }
    ensures rowed { Rowed file.now i rows.old result rows.new }
    ensures firsts_2 { Firsts file.now firsts.new }
{
    put_effect(rows, i, step_effect(file, own, i));
    record_ok(file, own, i, firsts)
}

// The same by the table of windows.
fn step_ok(
    file: &[u8],
    table: &[u64],
    owners: &[u16],
    i: usize,
    rows: &mut [u64; ROWS],
    firsts: &mut [usize; PLACES],
) -> bool
    requires given { Given file.now table.now owners.now }
    requires i_nonzero { (0 < i) × (i < record_count file.now) }
    requires fact { (IsCall file.now i → ⊥) × SomeStep file.now i }
    requires row_words_in_bounds { row_words ≤ length rows.old }
    requires firsts { Firsts file.now firsts.old }
    ensures value { result ≡ record_test (agrees file.now) file.now i }
    ensures rowed { Rowed file.now i rows.old result rows.new }
    ensures firsts_2 { Firsts file.now firsts.new }
{
    let start = start_of(table, owner_of(owners, i));
    row_ok(file, &table[start..], i, rows, firsts)
}

// The switch at record i.
fn switch_ok(
    file: &[u8],
    table: &[u64],
    owners: &[u16],
    i: usize,
    firsts: &mut [usize; PLACES],
) -> bool
    requires given { Given file.now table.now owners.now }
    requires i_nonzero { (0 < i) × (i < record_count file.now) }
    requires fact { IsCall file.now i → ⊥ }
    requires firsts { Firsts file.now firsts.old }
    ensures value { result ≡ record_test (agrees file.now) file.now i }
    ensures firsts_2 { Firsts file.now firsts.new }
{
    let start = start_of(table, owner_of(owners, i));
    record_ok(file, &table[start..], i, firsts)
}

// The step at record i has no effect, and asks for nothing.
fn put_none(rows: &mut [u64; ROWS], i: usize) -> bool
    requires { i < max_records }
    ensures { (result ≡ true) × (rows.new ≡ put_effect rows.old i (region_effect 0 0 0)) }
{
    put_effect(rows, i, region_effect(0, 0, 0));
    true
}

// What the row of record i says that its step does to regions.
fn effect_at(rows: &[u64; ROWS], i: usize) -> Effect
    ensures { result ≡ effect_in rows.now i }
{
    let needs = needs_at(rows, i);
    let bears = bears_at(rows, i);
    let ends = ends_at(rows, i);
    Effect {
        needs,
        bears,
        ends,
        unshared: marked(rows, i),
    }
}

// The call at record i. One that repeats the call at record last has its effect.
fn next_call_ok(
    file: &[u8],
    table: &[u64],
    owners: &[u16],
    last: usize,
    i: usize,
    rows: &mut [u64; ROWS],
) -> bool
    requires given { Given file.now table.now owners.now }
    requires i_nonzero { (0 < i) × (i < record_count file.now) × IsCall file.now i }
    requires row_words_in_bounds { row_words ≤ length rows.old }
    requires before { Before file.now rows.old last }
    ensures value { result ≡ record_test (agrees file.now) file.now i }
    ensures rowed { Rowed file.now i rows.old result rows.new }
{
    let start = start_of(table, owner_of(owners, i));
    if repeats(file, &table[start..], owners, last, i) {
        let effect = effect_at(rows, last);
        put_effect(rows, i, effect);
        return true;
    }
    let callee = start_of(table, word(file, i, format::CALL_PROCEDURE));
    call_ok(file, &table[start..], &table[callee..], i, rows)
}

// Record i, by its kind. The last call before it is at record last.
fn next_ok(
    file: &[u8],
    table: &[u64],
    owners: &[u16],
    last: usize,
    i: usize,
    rows: &mut [u64; ROWS],
    firsts: &mut [usize; PLACES],
) -> bool
    requires given { Given file.now table.now owners.now }
    requires i_nonzero { (0 < i) × (i < record_count file.now) }
    requires row_words_in_bounds { row_words ≤ length rows.old }
    requires before { Before file.now rows.old last }
    requires firsts { Firsts file.now firsts.old }
    ensures value { result ≡ record_test (agrees file.now) file.now i }
    ensures rowed { Rowed file.now i rows.old result rows.new }
    ensures firsts_2 { Firsts file.now firsts.new }
{
    match word(file, i, format::KIND) {
        format::LITERAL => put_none(rows, i),
        format::SUM => put_none(rows, i),
        format::PRINT => put_none(rows, i),
        format::TEST => put_none(rows, i),
        format::SWITCH => switch_ok(file, table, owners, i, firsts),
        format::CALL => next_call_ok(file, table, owners, last, i, rows),
        format::ASSIGN => step_ok(file, table, owners, i, rows, firsts),
        format::CONSTRUCT => step_ok(file, table, owners, i, rows, firsts),
        format::CREATE => step_ok(file, table, owners, i, rows, firsts),
        format::REMOVE => step_ok(file, table, owners, i, rows, firsts),
        _ => true,
    }
}

// Number 5. Puts what each step does to regions into its row; where the answer is false, such a row may be as it was. All else in the rows is.
pub fn regions_agree(file: &[u8], table: &[u64], owners: &[u16], rows: &mut [u64; ROWS]) -> bool
    requires given { Given file.now table.now owners.now }
    requires row_words_in_bounds { row_words ≤ length rows.old }
    ensures value { result ≡ regions_ok (program file.now) }
    ensures after_pass { AfterPass file.now rows.old result rows.new }
{
    let n = record_count(file);
    let mut firsts = [0; PLACES];
    let mut last = 0;
    for i in 1..n {
        if !next_ok(file, table, owners, last, i, rows, &mut firsts) {
            return false;
        }
        if word(file, i, format::KIND) == format::CALL {
            last = i;
        }
    }
    true
}
