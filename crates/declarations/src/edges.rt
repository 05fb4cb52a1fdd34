// The edges of a region against the places of its type, functor by functor and position by position.
ghost use Rattle.std.specs.Prelude.{◌≡◌, true, ◌<◌};
ghost use Rattle.language.specs.Format.{places};
ghost use Rattle.language.specs.Lists.{all};
ghost use Rattle.language.specs.File.{functors, edges};
ghost use Rattle.language.specs.Answers.{program};
ghost use Rattle.language.specs.Typing.{functor_ok};
ghost use Rattle.chains.specs.Formed.{Formed, Stands, functors_at};
ghost use Rattle.declarations.specs.Functors.{functor_at_record};
ghost use Rattle.declarations.specs.Declares.{Declares};
ghost use Rattle.declarations.specs.Own.{Own};
ghost use Rattle.declarations.specs.Edges.{place_at, PlaceMatch, PlacesMatch, FunctorMatch, AllMatch};

use crate::names::{first_functor, is_region_of};
use crate::places::{FILE_PLACES, OWN_PLACES};
use chains::word;
use language::format::{FUNCTOR_ARITY, NEXT};
use records::{Record, record_at};

// The record behind the edge at record e, where that stands for the place of functor g, position k and type t.
fn place_ok(
    file: &[u8],
    own: &[u16; OWN_PLACES],
    e: usize,
    g: usize,
    k: usize,
    t: usize,
) -> Option<usize>
    requires formed { Formed file.now × Own file.now own.now }
    requires stands { Stands file.now edges e }
    ensures { PlaceMatch file.now own.now (record { functor = g; position = k; type = t }) e result }
{
    if e == 0 {
        return None;
    }
    let Record::Edge {
        next,
        functor,
        position,
        target,
    } = record_at(file, e)
    else {
        return None;
    };
    if functor != g {
        return None;
    }
    if position != k {
        return None;
    }
    if !is_region_of(file, own, t, target) {
        return None;
    }
    Some(next)
}

// The same for position k, where its type t has regions: where it has none, no edge is asked for.
fn position_ok(
    file: &[u8],
    table: &[u16; FILE_PLACES],
    own: &[u16; OWN_PLACES],
    e: usize,
    g: usize,
    k: usize,
    t: usize,
) -> Option<usize>
    requires declares { Declares file.now table.now × Own file.now own.now }
    requires stands { Stands file.now edges e }
    requires t_lt_places { t < places }
    ensures { PlacesMatch file.now own.now (place_at file.now g k t) e result }
{
    if table[first_functor(table, t)] == 0 {
        return Some(e);
    }
    place_ok(file, own, e, g, k, t)
}

// The record behind the edges from record e on for all places of functor number g, which record i holds: none at arity 0. The words past the arity are 0, which is no
// type with regions.
fn functor_edges(
    file: &[u8],
    table: &[u16; FILE_PLACES],
    own: &[u16; OWN_PLACES],
    e: usize,
    g: usize,
    i: usize,
) -> Option<usize>
    requires declares { Declares file.now table.now × Own file.now own.now }
    requires stands { Stands file.now edges e }
    requires stands_2 { Stands file.now functors i × (i ≡ 0 → ⊥) }
    requires i_value { functor_ok (program file.now).types (functor_at_record file.now i) ≡ true }
    ensures { FunctorMatch file.now own.now g i e result }
{
    if word(file, i, FUNCTOR_ARITY) == 0 {
        return Some(e);
    }
    let Record::Functor {
        next: _,
        arity: _,
        t1,
        t2,
        t3,
        t4,
    } = record_at(file, i)
    else {
        return None;
    };
    let e1 = position_ok(file, table, own, e, g, 1, t1)?;
    let e2 = position_ok(file, table, own, e1, g, 2, t2)?;
    let e3 = position_ok(file, table, own, e2, g, 3, t3)?;
    position_ok(file, table, own, e3, g, 4, t4)
}

// The edges from record first on, for all functors of the chain at record start.
pub fn edges_ok(
    file: &[u8],
    table: &[u16; FILE_PLACES],
    own: &[u16; OWN_PLACES],
    start: usize,
    first: usize,
) -> bool
    requires declares { Declares file.now table.now × Own file.now own.now }
    requires stands { Stands file.now functors start × (all (functor_ok (program file.now).types) (functors_at file.now start) ≡ true) }
    requires stands_2 { Stands file.now edges first }
    ensures { AllMatch file.now own.now start first result }
{
    let mut i = start;
    let mut g = 0;
    let mut e = first;
    while i != 0 {
        let Some(after) = functor_edges(file, table, own, e, g, i) else {
            return false;
        };
        e = after;
        g += 1;
        i = word(file, i, NEXT);
    }
    e == 0
}
