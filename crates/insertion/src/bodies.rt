// The goals of a procedure, by its window.
ghost use Rattle.std.specs.Prelude.{◌≡◌, List, ℕ, length, get_or};
ghost use Rattle.sets.specs.Sets.{◌∖◌};
ghost use Rattle.language.specs.File;
ghost use Rattle.language.specs.Program.{Signature};
ghost use Rattle.language.specs.Lifetimes.{start_held, wanted};
ghost use Rattle.chains.specs.Formed.{Formed, Stands};
ghost use Rattle.tables.specs.Window.{Window, body_place};
ghost use Rattle.tables.specs.Filled.{Accessed};
ghost use Rattle.liveness.specs.Points.{point_words};
ghost use Rattle.insertion.specs.Bodies.{PointsFilled, BodyLaid};

use crate::Cursor;
use crate::points::list_wanted;
use crate::step::steps;
use crate::walk::goals;
use crate::wanted::wanted_in;
use language::format::{MAX_BYTES, REMOVE};
use laying::lay_marks;
use liveness::{Filled, POINTS, list_live};
use sets::Set;
use tables::{BODY, DEAD, KEPT, OUTS, ROWS, set_at, word_at};

// Fills the points of the procedure's goals with what is wanted there. "After the last goal, the out variables are live."
fn fill_points(file: &[u8], rows: &[u64; ROWS], own: &[u64], points: &mut [u64; POINTS]) -> Filled
    requires formed { Formed file.now }
    requires accessed { Accessed file.now rows.now }
    requires stands { Stands file.now File.goals (get_or own.now body_place 0) }
    requires points_len { length points.old ≡ point_words }
    ensures { PointsFilled file.now own.now points.new result.start result.live }
{
    let body = word_at(own, BODY);
    let outs = set_at(own, OUTS);
    let filled = list_live(file, rows, own, body, outs, points);
    list_wanted(own, points, filled.start);
    filled
}

// What is held and not wanted at the procedure's start. "A procedure starts with its dead and kept regions held."
fn start_removed(own: &[u64], live: Set) -> Set
    ensures { (f : List ℕ) (S : Signature) → Window f S own.now → result ≡ start_held S ∖ wanted S live }
{
    let kept = set_at(own, KEPT);
    let held = set_at(own, DEAD).union(kept);
    held.difference(wanted_in(own, live))
}

// Lays the procedure's goals: the removes at its start, then the rest.
pub fn lay_body(
    file: &[u8],
    rows: &[u64; ROWS],
    own: &[u64],
    points: &mut [u64; POINTS],
    out: &mut [u8; MAX_BYTES],
    first: usize,
) -> usize
    requires formed { Formed file.now }
    requires accessed { Accessed file.now rows.now }
    requires stands { Stands file.now File.goals (get_or own.now body_place 0) }
    requires points_len { length points.old ≡ point_words }
    ensures points_len_2 { length points.new ≡ point_words }
    ensures body_laid { BodyLaid file.now rows.now own.now out.old out.new first result }
{
    let filled = fill_points(file, rows, own, points);
    let live = filled.live;
    let removed = start_removed(own, live);
    let body = word_at(own, BODY);
    let record = lay_marks(out, REMOVE, removed, body, first);
    let mut at = Cursor {
        next: record,
        point: filled.start,
    };
    let i = steps(&file, rows, points, out, &mut at, body);
    goals(&file, rows, points, out, &mut at, i);
    at.next
}
