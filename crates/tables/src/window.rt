// Reading a window. What a window does not have is 0, or the empty set.
ghost use Rattle.std.specs.Prelude.{◌≡◌, get_or};
ghost use Rattle.tables.specs.Window.{set_in, is_number, home_in, reach_in, edges_in};

use crate::{EDGES, HOMES, REACHES, REGIONS, VARIABLES};
use language::format::PLACES;
use sets::Set;

// The word at place k.
pub fn word_at(own: &[u64], k: usize) -> usize
    ensures { result ≡ get_or own.now k 0 }
{
    if k < own.len() { own[k] as usize } else { 0 }
}

// The set at place k.
pub fn set_at(own: &[u64], k: usize) -> Set
    ensures { result ≡ set_in own.now k }
{
    if k < own.len() {
        Set::loaded(own[k])
    } else {
        Set::EMPTY
    }
}

// Whether x is a number from 1 to n, and at most 64.
fn is_number(n: usize, x: usize) -> bool
    ensures { result ≡ is_number n x }
{
    if x < 1 {
        return false;
    }
    if x >= PLACES {
        return false;
    }
    x <= n
}

// The region of variable x.
pub fn home(own: &[u64], x: usize) -> usize
    ensures { result ≡ home_in own.now x }
{
    if is_number(word_at(own, VARIABLES), x) {
        word_at(own, 2 * x + HOMES)
    } else {
        0
    }
}

// The reach of variable x.
pub fn reach(own: &[u64], x: usize) -> Set
    ensures { result ≡ reach_in own.now x }
{
    if is_number(word_at(own, VARIABLES), x) {
        set_at(own, 2 * x + REACHES)
    } else {
        Set::EMPTY
    }
}

// The first edge of region r.
pub fn edges(own: &[u64], r: usize) -> usize
    ensures { result ≡ edges_in own.now r }
{
    let n = word_at(own, VARIABLES);
    if n >= PLACES {
        return 0;
    }
    if is_number(word_at(own, REGIONS), r) {
        word_at(own, 2 * n + r + EDGES)
    } else {
        0
    }
}
