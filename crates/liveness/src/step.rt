// A step: what is live before it, and number 7.
ghost use Rattle.std.specs.Prelude.{◌≡◌};
ghost use Rattle.liveness.specs.Step.{live_at, classes_at, StepNoted};

use crate::WANTS;
use crate::carried::{Carried, put_point};
use crate::wants::unwanted;
use sets::Set;
use tables::{ROWS, bears_at, ends_at, gives_at, marked, reads_at};

// What is live before the step at record i.
fn live_step(rows: &[u64; ROWS], i: usize, after: Set) -> Set
    ensures { result ≡ live_at rows.now i after }
{
    let gives = gives_at(rows, i);
    let reads = reads_at(rows, i);
    after.difference(gives).union(reads)
}

// "at a call, a dead image wanted after, a born image wanted before, either shared with another region"
fn classes_kept(rows: &[u64; ROWS], wants: &[u64; WANTS], i: usize, before: Set, after: Set) -> bool
    ensures { result ≡ classes_at rows.now wants.now i before after }
{
    if !unwanted(wants, ends_at(rows, i), after) {
        return false;
    }
    if !unwanted(wants, bears_at(rows, i), before) {
        return false;
    }
    marked(rows, i)
}

// Writes the point of the step at record i.
pub fn step(rows: &[u64; ROWS], i: usize, carried: &mut Carried, table: &mut [u64])
    ensures { StepNoted rows.now i carried.old table.old carried.new table.new }
{
    let after = carried.live;
    let before = live_step(rows, i, after);
    if classes_kept(rows, &carried.wants, i, before, after) {
        put_point(before, after, carried, table);
        return;
    }
    carried.classes = false;
    put_point(before, after, carried, table);
}
