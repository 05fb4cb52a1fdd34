// The table of points: two words each, what is live before the goal and what is live after it, till a later pass puts other sets there.
ghost use Rattle.std.specs.Prelude.{◌≡◌, ◌∷◌, [], length};
ghost use Rattle.liveness.specs.Points.{point, point_words};
ghost use Rattle.liveness.specs.Table.{Fills, before_at, after_at};

use crate::POINTS;
use sets::Set;

// Room for the points of a procedure's goals.
pub fn blank_points() -> [u64; POINTS]
    ensures { point_words ≡ length result }
{
    [0; POINTS]
}

// Writes a point in front of place end, and answers where it stands. Where it has no room there, the table stays as it is.
pub fn note(before: Set, after: Set, end: usize, table: &mut [u64]) -> usize
    ensures { Fills table.old table.new result end (point before after ∷ []) }
{
    if end < 2 {
        return 0;
    }
    let start = end - 2;
    if end <= table.len() {
        table[start] = before.stored();
        table[start + 1] = after.stored();
    }
    start
}

// The set before the goal whose point stands at that place; nothing past the end.
pub fn before_at(table: &[u64], at: usize) -> Set
    ensures { result ≡ before_at table.now at }
{
    if at < table.len() {
        return Set::loaded(table[at]);
    }
    Set::EMPTY
}

// The set after it.
pub fn after_at(table: &[u64], at: usize) -> Set
    ensures { result ≡ after_at table.now at }
{
    if at < table.len() {
        return before_at(table, at + 1);
    }
    Set::EMPTY
}
