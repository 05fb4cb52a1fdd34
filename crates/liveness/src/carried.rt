// What the walk carries, and the points that it writes.
ghost use Rattle.liveness.specs.Noted.{Noted};

use crate::WANTS;
use crate::table::note;
use sets::Set;

// What the walk carries, in place, so that a level of it takes little of the stack: what is live, the place that the next point is written in front of,
// whether the steps so far keep number 7; and what is wanted, which stays.
#[derive(Clone, Copy)]
pub struct Carried {
    pub live: Set,
    pub place: usize,
    pub classes: bool,
    pub wants: [u64; WANTS],
}

// Writes the point of a goal, which `before` is live before and `after` behind.
pub fn put_point(before: Set, after: Set, carried: &mut Carried, table: &mut [u64])
    ensures { Noted carried.old table.old carried.new table.new before after carried.old.classes }
{
    carried.place = note(before, after, carried.place, table);
    carried.live = before;
}
