// The annotator's answer to any bytes.
ghost use Rattle.std.specs.Prelude.{◌≡◌, true, length};
ghost use Rattle.language.specs.Typing.{typing_ok};
ghost use Rattle.language.specs.Answers.{program, annotated};
ghost use Rattle.chains.specs.Formed.{Formed};
ghost use Rattle.liveness.specs.Points.{point_words};
ghost use Rattle.insertion.specs.Procedures.{Unrefused};
ghost use Rattle.annotation.specs.Answer.{Annotates, RoomIn, room_answer, typed_answer};

use crate::annotatable::check_annotatable;
use insertion::{blank_laid, lay_annotated, write};
use language::Refusal;
use language::format::{MAX_BYTES, MAX_RECORDS, RECORD_BYTES};
use liveness::{POINTS, blank_points};
use stages::check_typing;
use tables::{ROWS, TABLE, blank_file_table, blank_rows};

// Number 9, "annotated file over 4,096 records or longer than the memory lent", before the first byte is written; then the file. It is laid into memory of
// this function's own, whose length the compiler knows, so that a level of the walk takes little of the stack. `room` bytes of `out` may be written.
fn write_annotated(
    file: &[u8],
    table: &[u64; TABLE],
    rows: &[u64; ROWS],
    points: &mut [u64; POINTS],
    out: &mut [u8],
    room: usize,
) -> Result<usize, Refusal>
    requires unrefused { Unrefused file.now table.now rows.now }
    requires points_len { length points.old ≡ point_words }
    requires room_in { RoomIn room (length out.old) }
    ensures { Annotates (room_answer file.now (length out.old)) out.old out.new result }
{
    let mut laid = blank_laid();
    let records = lay_annotated(file, table, rows, points, &mut laid);
    if records > MAX_RECORDS {
        return Err(Refusal::Room);
    }
    let bytes = RECORD_BYTES * records;
    if room < bytes {
        return Err(Refusal::Room);
    }
    write(&laid, bytes, out);
    Ok(bytes)
}

// The answer to a file that passed number 3. The tables are made here, where the stack of number 3's walk is given back. The last step is called in two
// places: what has one caller the compiler puts into it, and the memory that the file is laid into would lie below number 3's walk.
fn annotate_typed(file: &[u8], out: &mut [u8]) -> Result<usize, Refusal>
    requires formed { Formed file.now }
    requires file_value { typing_ok (program file.now) ≡ true }
    ensures { Annotates (typed_answer file.now (length out.old)) out.old out.new result }
{
    let mut table = blank_file_table();
    let mut rows = blank_rows();
    let mut points = blank_points();
    check_annotatable(file, &mut table, &mut rows, &mut points)?;
    let lent = out.len();
    if lent < MAX_BYTES {
        return write_annotated(file, &table, &rows, &mut points, out, lent);
    }
    write_annotated(file, &table, &rows, &mut points, out, MAX_BYTES)
}

// Writes the annotated file as the front part of `out`, and says how many bytes it is; "bytes behind it keep their contents". After a refusal all of them do.
pub fn annotate(file: &[u8], out: &mut [u8]) -> Result<usize, Refusal>
    ensures { Annotates (annotated file.now (length out.old)) out.old out.new result }
{
    check_typing(file)?;
    annotate_typed(file, out)
}
