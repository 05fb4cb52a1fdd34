// The points of a whole procedure.
ghost use Rattle.std.specs.Prelude.{◌≡◌, length};
ghost use Rattle.language.specs.File.{goals};
ghost use Rattle.chains.specs.Formed.{Formed, Stands};
ghost use Rattle.tables.specs.Filled.{Accessed};
ghost use Rattle.liveness.specs.Wants.{want_words};
ghost use Rattle.liveness.specs.Points.{point_words};
ghost use Rattle.liveness.specs.Done.{ListDone, ListClasses};

use crate::carried::Carried;
use crate::walk::goals;
use crate::wants::list_wants;
use crate::{Filled, POINTS, WANTS};
use sets::Set;
use tables::ROWS;

fn blank_wants() -> [u64; WANTS]
    ensures { want_words ≡ length result }
{
    [0; WANTS]
}

// Writes the points of a procedure's goals, from record body on, at the end of the table; own is the procedure's window. "After the last goal, the
// out variables are live."
pub fn list_live(
    file: &[u8],
    rows: &[u64; ROWS],
    own: &[u64],
    body: usize,
    outs: Set,
    table: &mut [u64; POINTS],
) -> Filled
    requires formed { Formed file.now }
    requires accessed { Accessed file.now rows.now }
    requires stands { Stands file.now goals body }
    requires table_len { length table.old ≡ point_words }
    ensures table_len_2 { length table.new ≡ point_words }
    ensures list_done { ListDone file.now body outs table.old table.new result.start result.live }
    ensures list_classes { ListClasses file.now rows.now own.now body outs result.classes }
{
    let mut wants = blank_wants();
    list_wants(own, &mut wants);
    let mut carried = Carried {
        live: outs,
        place: POINTS,
        classes: true,
        wants,
    };
    goals(&file, rows, body, &mut carried, table);
    Filled {
        live: carried.live,
        start: carried.place,
        classes: carried.classes,
    }
}
