// The checker's rules for a step, by its row and the window of its procedure.
ghost use Rattle.std.specs.Prelude.{◌≡◌};
ghost use Rattle.checking.specs.Rules.{rules_at, StepAfter, Entered};

use crate::carried::Carried;
use crate::sound::{sound_given, sound_without};
use sets::Set;
use tables::{KEPT, ROWS, bears_at, ends_at, gives_at, marked, needs_at, reads_at, set_at};

// "Create: not held before. Remove: held, not kept." "Each variable read is sound. A construct's region is held." "Call: images of dead and kept
// regions are held. Images of dead ones are not kept by the caller. Images of born ones are not held. An image of a dead or born one is no other
// region's image."
fn allowed(rows: &[u64; ROWS], own: &[u64], i: usize, held: Set, sound: Set) -> bool
    ensures { result ≡ rules_at rows.now own.now i held sound }
{
    if !reads_at(rows, i).is_subset(sound) {
        return false;
    }
    if !needs_at(rows, i).is_subset(held) {
        return false;
    }
    if !ends_at(rows, i)
        .intersection(set_at(own, KEPT))
        .same(Set::EMPTY)
    {
        return false;
    }
    if !bears_at(rows, i).intersection(held).same(Set::EMPTY) {
        return false;
    }
    marked(rows, i)
}

// After the step at record i; nothing where a rule is broken.
pub fn step(rows: &[u64; ROWS], own: &[u64], before: Carried, i: usize) -> Option<Carried>
    ensures { StepAfter rows.now own.now i before result }
{
    let Carried { held, sound } = before;
    if !allowed(rows, own, i, held, sound) {
        return None;
    }
    let ends = ends_at(rows, i);
    let after = held.difference(ends).union(bears_at(rows, i));
    let still = sound_without(own, ends, sound);
    Some(Carried {
        held: after,
        sound: sound_given(own, gives_at(rows, i), after, still),
    })
}

// Where the goals of the arm at record i start: its arguments have been given their values.
pub fn enter(rows: &[u64; ROWS], own: &[u64], before: Carried, i: usize) -> Carried
    ensures { Entered rows.now own.now i before result }
{
    Carried {
        held: before.held,
        sound: sound_given(own, gives_at(rows, i), before.held, before.sound),
    }
}
