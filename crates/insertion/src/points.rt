// The points of a procedure's goals, each with what is wanted before its goal and after it.
ghost use Rattle.std.specs.Prelude.{◌≡◌, ◌+◌, ◌≤◌, ◌<◌, length};
ghost use Rattle.sets.specs.Sets.{◌∖◌};
ghost use Rattle.liveness.specs.Table.{before_at, after_at};
ghost use Rattle.liveness.specs.Points.{point_words};
ghost use Rattle.insertion.specs.Wants.{Turned};

use crate::wanted::wanted_in;
use liveness::{POINTS, after_at, before_at};
use sets::Set;

// The place behind the point at that place.
pub fn past(at: usize) -> usize
    ensures { at < point_words → result ≡ at + 2 }
{
    if at < POINTS {
        return at + 2;
    }
    at
}

// What is live at each point, from place start on, becomes what is wanted there.
pub fn list_wanted(own: &[u64], points: &mut [u64; POINTS], start: usize)
    requires points_len { length points.old ≡ point_words }
    requires start_le_point_words { start ≤ point_words }
    ensures { Turned own.now points.old points.new start point_words }
{
    for at in start..POINTS {
        let wanted = wanted_in(own, Set::loaded(points[at]));
        points[at] = wanted.stored();
    }
}

// What is to be removed at the start of a part of the goal whose point is at `whole`: what is wanted before the goal, less what is wanted where the
// part starts. That is at the point of its first goal, or after the whole goal where it has none.
pub fn left_over(points: &[u64; POINTS], whole: usize, start: usize, at: usize) -> Set
    ensures value { start ≡ 0 → result ≡ before_at points.now whole ∖ after_at points.now whole }
    ensures value_2 { (start ≡ 0 → ⊥) → result ≡ before_at points.now whole ∖ before_at points.now at }
{
    let held = before_at(points, whole);
    if start == 0 {
        let after = after_at(points, whole);
        return held.difference(after);
    }
    let before = before_at(points, at);
    held.difference(before)
}
