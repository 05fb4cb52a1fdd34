// The arguments of a construct or an arm against the targets of their edges.
ghost use Rattle.std.specs.Prelude.{◌≡◌, ℕ, ◌≤◌, ◌<◌};
ghost use Rattle.language.specs.Format;
ghost use Rattle.language.specs.File.{edges, record_count};
ghost use Rattle.language.specs.Regions.{target_for};
ghost use Rattle.language.specs.Format.{max_arity};
ghost use Rattle.chains.specs.Formed.{Formed, Stands, edges_at};
ghost use Rattle.regions.specs.Firsts.{FirstEdge, Firsts};
ghost use Rattle.regions.specs.Terms.{arguments_here, words_from, term_in};

use chains::word;
use language::format::{
    EDGE_FUNCTOR, EDGE_POSITION, EDGE_TARGET, MAX_ARITY, MAX_FUNCTORS, NEXT, PLACES,
    TERM_ARGUMENTS, TERM_FUNCTOR,
};
use tables::home;

// The target of the edge for functor f and position k in the chain at record start; 0 where there is none.
fn target_for(file: &[u8], start: usize, f: usize, k: usize) -> usize
    requires formed { Formed file.now }
    requires stands { Stands file.now edges start }
    ensures { result ≡ target_for (edges_at file.now start) f k }
{
    let mut i = start;
    while i != 0 {
        let next = word(file, i, NEXT);
        if word(file, i, EDGE_FUNCTOR) == f {
            if word(file, i, EDGE_POSITION) == k {
                return word(file, i, EDGE_TARGET);
            }
        }
        i = next;
    }
    0
}

// The first edge for functor f in the chain at record start; 0 where there is none.
fn edges_for(file: &[u8], start: usize, f: usize) -> usize
    requires formed { Formed file.now }
    requires stands { Stands file.now edges start }
    ensures stands_2 { Stands file.now edges result }
    ensures by_index { (k : ℕ) → target_for (edges_at file.now result) f k ≡ target_for (edges_at file.now start) f k }
{
    let mut i = start;
    while i != 0 {
        if word(file, i, EDGE_FUNCTOR) == f {
            return i;
        }
        i = word(file, i, NEXT);
    }
    i
}

// The first edge for functor f in the chain at record start, by the first edges found before: for each functor the chain that was searched last
// and the edge.
fn first_edge(file: &[u8], start: usize, f: usize, firsts: &mut [usize; PLACES]) -> usize
    requires formed { Formed file.now }
    requires stands { Stands file.now edges start }
    requires firsts { Firsts file.now firsts.old }
    ensures first_edge { FirstEdge file.now f start result }
    ensures firsts_2 { Firsts file.now firsts.new }
{
    if MAX_FUNCTORS <= f {
        return edges_for(file, start, f);
    }
    if firsts[2 * f] == start {
        return firsts[2 * f + 1];
    }
    let first = edges_for(file, start, f);
    firsts[2 * f] = start;
    firsts[2 * f + 1] = first;
    first
}

// How many arguments the construct or arm at record i has: a zero at the end is none.
fn count_arguments(file: &[u8], i: usize) -> usize
    requires formed { Formed file.now }
    requires i_bound { i < record_count file.now }
    ensures upper_bound { result ≤ max_arity }
    ensures i_value { arguments_here file.now i ≡ words_from file.now i Format.term_arguments result }
{
    if word(file, i, TERM_ARGUMENTS + 3) != 0 {
        return MAX_ARITY;
    }
    if word(file, i, TERM_ARGUMENTS + 2) != 0 {
        return 3;
    }
    if word(file, i, TERM_ARGUMENTS + 1) != 0 {
        return 2;
    }
    if word(file, i, TERM_ARGUMENTS) != 0 {
        return 1;
    }
    0
}

// Whether the arguments at record i, of a construct or an arm, are in the targets of their edges, which are in the chain at record start.
pub fn in_targets(
    file: &[u8],
    own: &[u64],
    start: usize,
    i: usize,
    firsts: &mut [usize; PLACES],
) -> bool
    requires formed { Formed file.now }
    requires stands { Stands file.now edges start × (i < record_count file.now) }
    requires firsts { Firsts file.now firsts.old }
    ensures value { result ≡ term_in file.now own.now start i }
    ensures firsts_2 { Firsts file.now firsts.new }
{
    let functor = word(file, i, TERM_FUNCTOR);
    let first = first_edge(file, start, functor, firsts);
    let n = count_arguments(file, i);
    for k in 0..n {
        let r = home(own, word(file, i, TERM_ARGUMENTS + k));
        if r != target_for(file, first, functor, k + 1) {
            return false;
        }
    }
    true
}
