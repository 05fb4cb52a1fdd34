// Numbers 1 to 3 of any bytes; then numbers 4, 5 and 17, and 7's part for every program, with the tables that later stages read.
ghost use Rattle.std.specs.Prelude.{◌≡◌, true, ◌≤◌, length, Ok};
ghost use Rattle.language.specs.Typing.{typing_ok};
ghost use Rattle.language.specs.Regions.{regions_ok};
ghost use Rattle.language.specs.Answers.{lowest, program};
ghost use Rattle.tables.specs.TablePlaces.{file_words, row_words};
ghost use Rattle.chains.specs.Formed.{Formed};
ghost use Rattle.tables.specs.Window.{FileTable};
ghost use Rattle.tables.specs.Filled.{Prepared};
ghost use Rattle.regions.specs.Rowed.{AfterPass};
ghost use Rattle.stages.specs.Stages.{shape_stages, typing_stages, region_stages, table_stages};
ghost use Rattle.stages.specs.Tabled.{TablesAfter};

use called::all_reached;
use conditions::conditions_ok;
use language::Refusal;
use language::format::MAX_RECORDS;
use owners::list_owners;
use records::check_form;
use regions::regions_agree;
use tables::{ROWS, TABLE};
use typing::typing_ok;
use values::values_ok;
use windows::list_procedures;

// Numbers 1 and 2.
fn check_shape(file: &[u8]) -> Result<(), Refusal>
    ensures { result ≡ lowest (shape_stages file.now) }
{
    check_form(file)?;
    if !conditions_ok(file) {
        return Err(Refusal::Form);
    }
    Ok(())
}

// Numbers 1 to 3.
pub fn check_typing(file: &[u8]) -> Result<(), Refusal>
    ensures { result ≡ lowest (typing_stages file.now) }
{
    check_shape(file)?;
    if !typing_ok(file) {
        return Err(Refusal::Typing);
    }
    Ok(())
}

// Numbers 5 and 17, with what each step does to regions in its row. Both go by the procedure that each record belongs to; number 17 puts links over that.
fn check_regions(file: &[u8], table: &[u64; TABLE], rows: &mut [u64; ROWS]) -> Result<(), Refusal>
    requires formed { Formed file.now }
    requires file_value { typing_ok (program file.now) ≡ true }
    requires file_table { FileTable file.now table.now }
    requires row_words_in_bounds { row_words ≤ length rows.old }
    ensures value { result ≡ lowest (region_stages file.now) }
    ensures after_pass { AfterPass file.now rows.old (regions_ok (program file.now)) rows.new }
{
    let mut owners = [0; MAX_RECORDS];
    list_owners(file, &mut owners);
    if !regions_agree(file, table, &owners, rows) {
        return Err(Refusal::Regions);
    }
    if !all_reached(file, &mut owners) {
        return Err(Refusal::Unreached);
    }
    Ok(())
}

// Numbers 4, 5 and 17, and 7's part for every program, of a file that passed number 3. Fills the file's table, and the rows as far as it comes before a
// refusal.
pub fn check_classes(
    file: &[u8],
    table: &mut [u64; TABLE],
    rows: &mut [u64; ROWS],
) -> Result<(), Refusal>
    requires formed { Formed file.now }
    requires file_value { typing_ok (program file.now) ≡ true }
    requires file_words_in_bounds { (file_words ≤ length table.old) × (row_words ≤ length rows.old) }
    ensures value { result ≡ lowest (table_stages file.now) }
    ensures prepared { result ≡ Ok tt → Prepared file.now table.new rows.new }
    ensures tables_after { TablesAfter file.now table.old rows.old result table.new rows.new }
{
    let right = list_procedures(file, table);
    if !values_ok(file, table, rows) {
        return Err(Refusal::Values);
    }
    check_regions(file, table, rows)?;
    if !right {
        return Err(Refusal::Classes);
    }
    Ok(())
}
