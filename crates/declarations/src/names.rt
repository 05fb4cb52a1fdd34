// Numbers that name something declared: the record that a table has for it, 0 where there is no such thing.
ghost use Rattle.std.specs.Prelude.{◌≡◌, ◌+◌, ◌≤◌, ◌<◌, length, get_or};
ghost use Rattle.language.specs.Format.{max_records, places};
ghost use Rattle.language.specs.Typing.{has_type, is_region_of};
ghost use Rattle.chains.specs.Formed.{Formed};
ghost use Rattle.declarations.specs.DeclaredPlaces.{place_in, variable_in, region_in, procedure_in, functor_in, regioned_in};
ghost use Rattle.declarations.specs.Own.{Own, declared};

use crate::places::{FILE_PLACES, FUNCTOR_PLACES, OWN_PLACES, PROCEDURE_PLACES, REGION_PLACES};
use chains::word;
use language::format::{MAX_FUNCTORS, MAX_PROCEDURES, PLACES, REGION_TYPE, VARIABLE_TYPE};

// Entry n of the `most` from place `at` on.
fn place(table: &[u16], at: usize, most: usize, n: usize) -> usize
    requires { at + most ≤ length table.now }
    ensures { result ≡ place_in table.now at most n }
{
    if most <= n {
        return 0;
    }
    usize::from(table[at + n])
}

// Functor n of type t.
pub fn functor(table: &[u16; FILE_PLACES], t: usize, n: usize) -> usize
    ensures { result ≡ functor_in table.now t n }
{
    if PLACES <= t {
        return 0;
    }
    place(table, FUNCTOR_PLACES + MAX_FUNCTORS * t, MAX_FUNCTORS, n)
}

// The first functor of t, a type or 0.
pub fn first_functor(table: &[u16; FILE_PLACES], t: usize) -> usize
    requires { t < places }
    ensures { result ≡ functor_in table.now t 0 }
{
    usize::from(table[FUNCTOR_PLACES + MAX_FUNCTORS * t])
}

// The first functor of type t, where the type has regions.
pub fn regioned(table: &[u16; FILE_PLACES], t: usize) -> usize
    requires { functor_in table.now t 0 < max_records }
    ensures { result ≡ regioned_in table.now t }
{
    usize::from(table[functor(table, t, 0)])
}

pub fn procedure(table: &[u16; FILE_PLACES], q: usize) -> usize
    ensures { result ≡ procedure_in table.now q }
{
    place(table, PROCEDURE_PLACES, MAX_PROCEDURES, q)
}

// The first in or out variable from the variable at record v on.
pub fn parameter(table: &[u16; FILE_PLACES], v: usize) -> usize
    requires { v < max_records }
    ensures { result ≡ get_or table.now v 0 }
{
    usize::from(table[v])
}

pub fn variable(own: &[u16; OWN_PLACES], x: usize) -> usize
    ensures { result ≡ variable_in own.now x }
{
    place(own, 0, PLACES, x)
}

pub fn region(own: &[u16; OWN_PLACES], r: usize) -> usize
    ensures { result ≡ region_in own.now r }
{
    place(own, REGION_PLACES, PLACES, r)
}

// Whether x is a variable of type t.
pub fn has_type(file: &[u8], own: &[u16; OWN_PLACES], t: usize, x: usize) -> bool
    requires formed { Formed file.now }
    requires own { Own file.now own.now }
    ensures { result ≡ has_type (declared file.now own.now) t x }
{
    let v = variable(own, x);
    if v == 0 {
        return false;
    }
    word(file, v, VARIABLE_TYPE) == t
}

// Whether r is a region of type t.
pub fn is_region_of(file: &[u8], own: &[u16; OWN_PLACES], t: usize, r: usize) -> bool
    requires formed { Formed file.now }
    requires own { Own file.now own.now }
    ensures { result ≡ is_region_of (declared file.now own.now) t r }
{
    let i = region(own, r);
    if i == 0 {
        return false;
    }
    word(file, i, REGION_TYPE) == t
}
