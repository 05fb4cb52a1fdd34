// Numbers 4 to 7 of a file that passed number 3, in the order of the table, with 17 behind 5.
ghost use Rattle.std.specs.Prelude.{◌≡◌, true, ◌≤◌, length, Ok};
ghost use Rattle.language.specs.declared.Refusal.TheVariants.{Classes};
ghost use Rattle.language.specs.Typing.{typing_ok};
ghost use Rattle.language.specs.Annotation.{unannotated};
ghost use Rattle.language.specs.Answers.{lowest, program};
ghost use Rattle.tables.specs.TablePlaces.{file_words, row_words};
ghost use Rattle.chains.specs.Formed.{Formed};
ghost use Rattle.tables.specs.Filled.{Prepared};
ghost use Rattle.liveness.specs.Points.{point_words};
ghost use Rattle.annotation.specs.Stages.{sooner, mark_stages};

use language::Refusal;
use liveness::{POINTS, call_classes_ok};
use owners::is_unannotated;
use stages::check_classes;
use tables::{ROWS, TABLE};

// Number 6 stands before number 7: "a create or remove in the input".
fn lower(file: &[u8], r: Refusal) -> Refusal
    requires { Formed file.now }
    ensures { result ≡ sooner (unannotated (program file.now)) r }
{
    match r {
        Refusal::Classes => if is_unannotated(file) {
            r
        } else {
            Refusal::Annotated
        },
        _ => r,
    }
}

// Fills the file's table and the rows; after a refusal both are free, as the points are in any case.
pub fn check_annotatable(
    file: &[u8],
    table: &mut [u64; TABLE],
    rows: &mut [u64; ROWS],
    points: &mut [u64; POINTS],
) -> Result<(), Refusal>
    requires formed { Formed file.now }
    requires file_value { typing_ok (program file.now) ≡ true }
    requires file_words_in_bounds { (file_words ≤ length table.old) × (row_words ≤ length rows.old) }
    requires points_len { length points.old ≡ point_words }
    ensures points_len_2 { length points.new ≡ point_words }
    ensures value { result ≡ lowest (mark_stages file.now) }
    ensures prepared { result ≡ Ok tt → Prepared file.now table.new rows.new }
{
    if let Err(r) = check_classes(file, table, rows) {
        return Err(lower(file, r));
    }
    if !is_unannotated(file) {
        return Err(Refusal::Annotated);
    }
    if !call_classes_ok(file, table, rows, points) {
        return Err(Refusal::Classes);
    }
    Ok(())
}
