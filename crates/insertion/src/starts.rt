// The start of a part.
ghost use Rattle.std.specs.Prelude.{◌≡◌};
ghost use Rattle.insertion.specs.Starts.{first_of, LaysStart};

use crate::Cursor;
use crate::points::left_over;
use language::format::{MAX_BYTES, REMOVE};
use laying::lay_marks;
use liveness::POINTS;

// The first goal of a condition and its then part in turn.
pub fn either(condition: usize, then: usize) -> usize
    ensures { result ≡ first_of condition then }
{
    if condition == 0 { then } else { condition }
}

// Lays the removes at the start of a part of the goal whose point is at `whole`. Record first is the goal that comes next, in the part or behind
// it, 0 where that is none; the part goes on where `on` is not 0.
pub fn start_part(
    points: &[u64; POINTS],
    out: &mut [u8; MAX_BYTES],
    at: &mut Cursor,
    whole: usize,
    first: usize,
    on: usize,
)
    ensures { LaysStart points.now whole first on out.old out.new at.old at.new }
{
    let point = at.point;
    let removed = left_over(points, whole, first, point);
    let record = lay_marks(out, REMOVE, removed, on, at.next);
    at.next = record;
}
