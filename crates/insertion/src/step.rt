// Steps, each with the creates before it and the removes after it.
ghost use Rattle.std.specs.Prelude.{◌≡◌};
ghost use Rattle.language.specs.File;
ghost use Rattle.chains.specs.Formed.{Formed, Stands};
ghost use Rattle.chains.specs.Shapes.{IsSwitch, IsIf, IsTry};
ghost use Rattle.insertion.specs.Done.{LaysGoal};
ghost use Rattle.insertion.specs.Along.{LaysAlong, HasParts};
ghost use Rattle.insertion.specs.Steps.{created_in, removed_in};

use crate::Cursor;
use crate::placed::{created_for, removed_after};
use crate::points::past;
use chains::word;
use language::Goal;
use language::format::{CREATE, MAX_BYTES, NEXT, REMOVE};
use laying::{follows, lay_marks, lay_record};
use liveness::{POINTS, after_at, before_at};
use sets::Set;
use tables::{ROWS, bears_at, ends_at, needs_at};

// What is created before the step at record i, whose point is at that place.
fn created_at(rows: &[u64; ROWS], points: &[u64; POINTS], i: usize, point: usize) -> Set
    ensures { result ≡ created_in rows.now points.now i point }
{
    let before = before_at(points, point);
    let after = after_at(points, point);
    created_for(needs_at(rows, i), bears_at(rows, i), before, after)
}

// What is removed after it.
fn removed_at(
    rows: &[u64; ROWS],
    points: &[u64; POINTS],
    i: usize,
    point: usize,
    created: Set,
) -> Set
    ensures { result ≡ removed_in rows.now points.now i point created }
{
    let held = before_at(points, point).union(created);
    let after = after_at(points, point);
    removed_after(held, ends_at(rows, i), bears_at(rows, i), after)
}

// The step at record i.
fn step(
    file: &&[u8],
    rows: &[u64; ROWS],
    points: &[u64; POINTS],
    out: &mut [u8; MAX_BYTES],
    at: &mut Cursor,
    i: usize,
)
    requires formed { Formed file.now.now }
    requires stands { Stands file.now.now File.goals i × (i ≡ 0 → ⊥) }
    requires fact { (IsSwitch file.now.now i → ⊥) × ((IsIf file.now.now i → ⊥) × (IsTry file.now.now i → ⊥)) }
    ensures { LaysGoal file.now.now rows.now points.now i out.old out.new at.old at.new }
{
    let point = at.point;
    let created = created_at(rows, points, i, point);
    let removed = removed_at(rows, points, i, point, created);
    let next = word(*file, i, NEXT);
    let start = lay_marks(out, CREATE, created, 1, at.next);
    let end = lay_record(*file, out, i, follows(removed, next), start);
    let record = lay_marks(out, REMOVE, removed, next, end);
    *at = Cursor {
        next: record,
        point: past(point),
    };
}

// The steps from record start on, up to the first goal with parts, which is answered; 0 where the chain has none.
pub fn steps(
    file: &&[u8],
    rows: &[u64; ROWS],
    points: &[u64; POINTS],
    out: &mut [u8; MAX_BYTES],
    at: &mut Cursor,
    start: usize,
) -> usize
    requires formed { Formed file.now.now }
    requires stands { Stands file.now.now File.goals start }
    ensures lays_along { LaysAlong file.now.now rows.now points.now start result out.old out.new at.old at.new }
    ensures has_parts { HasParts file.now.now result }
{
    let mut i = start;
    while i != 0 {
        match chains::goal(*file, i) {
            Goal::Switch | Goal::If | Goal::Try => return i,
            _ => step(file, rows, points, out, at, i),
        }
        i = word(*file, i, NEXT);
    }
    i
}
