// Number 7's part at calls, procedure by procedure.
ghost use Rattle.std.specs.Prelude.{◌≡◌, ◌<◌, length, get_or};
ghost use Rattle.language.specs.File.{goals};
ghost use Rattle.language.specs.Program.{procedure_at};
ghost use Rattle.language.specs.Lifetimes.{call_classes_ok};
ghost use Rattle.language.specs.Answers.{program};
ghost use Rattle.chains.specs.Formed.{Formed, Stands};
ghost use Rattle.tables.specs.Window.{body_place, outs_place, set_in};
ghost use Rattle.tables.specs.Filled.{Accessed, Prepared};
ghost use Rattle.liveness.specs.Points.{point_words};
ghost use Rattle.liveness.specs.Done.{ListClasses};
ghost use Rattle.liveness.specs.Classes.{procedure_classes};

use crate::POINTS;
use crate::whole::list_live;
use language::format::{HEADER_PROCEDURES, NEXT};
use records::word;
use tables::{BODY, OUTS, ROWS, TABLE, set_at, start_of, word_at};

// Whether the steps of the procedure with this window keep number 7. "After the last goal, the out variables are live."
fn window_ok(file: &[u8], rows: &[u64; ROWS], own: &[u64], points: &mut [u64; POINTS]) -> bool
    requires formed { Formed file.now }
    requires accessed { Accessed file.now rows.now }
    requires stands { Stands file.now goals (get_or own.now body_place 0) }
    requires points_len { length points.old ≡ point_words }
    ensures points_len_2 { length points.new ≡ point_words }
    ensures list_classes { ListClasses file.now rows.now own.now (get_or own.now body_place 0) (set_in own.now outs_place) result }
{
    let body = word_at(own, BODY);
    let outs = set_at(own, OUTS);
    let filled = list_live(file, rows, own, body, outs, points);
    filled.classes
}

// Whether the steps of procedure q keep it.
fn procedure_ok(
    file: &[u8],
    table: &[u64],
    rows: &[u64; ROWS],
    q: usize,
    points: &mut [u64; POINTS],
) -> bool
    requires formed { Formed file.now }
    requires prepared { Prepared file.now table.now rows.now }
    requires q_in_bounds { q < length (program file.now).procedures }
    requires points_len { length points.old ≡ point_words }
    ensures points_len_2 { length points.new ≡ point_words }
    ensures value { result ≡ procedure_classes (program file.now) (procedure_at (program file.now) q) }
{
    let start = start_of(table, q);
    window_ok(file, rows, &table[start..], points)
}

// "annotator also: at a call, a dead image wanted after, a born image wanted before, either shared with another region"
pub fn call_classes_ok(
    file: &[u8],
    table: &[u64; TABLE],
    rows: &[u64; ROWS],
    points: &mut [u64; POINTS],
) -> bool
    requires formed { Formed file.now }
    requires prepared { Prepared file.now table.now rows.now }
    requires points_len { length points.old ≡ point_words }
    ensures points_len_2 { length points.new ≡ point_words }
    ensures value { result ≡ call_classes_ok (program file.now) }
{
    let mut i = word(file, 0, HEADER_PROCEDURES);
    let mut q = 0;
    while i != 0 {
        if !procedure_ok(file, table, rows, q, points) {
            return false;
        }
        q += 1;
        i = word(file, i, NEXT);
    }
    true
}
