// The types: their functors' counts, arities and argument types. There are n types.
ghost use Rattle.std.specs.Prelude.{◌≡◌};
ghost use Rattle.language.specs.Lists.{all};
ghost use Rattle.language.specs.File.{types, functors};
ghost use Rattle.language.specs.Program.{four};
ghost use Rattle.language.specs.Answers.{program};
ghost use Rattle.language.specs.Typing.{types_ok};
ghost use Rattle.chains.specs.Formed.{Formed, Stands, functors_at, types_at};
ghost use Rattle.declarations.specs.Types.{type_slot, functor_fits, type_fits};

use chains::chain_length;
use language::format::{HEADER_TYPES, MAX_ARITY, MAX_FUNCTORS, MAX_TYPES};
use records::{Record, record_at, word};

// Word k, counted from 0, of the argument types: a type within the arity, 0 past it.
fn slot_ok(n: usize, arity: usize, k: usize, t: usize) -> bool
    ensures { result ≡ type_slot n arity k t }
{
    if k < arity {
        return t <= n;
    }
    t == 0
}

fn functor_ok(n: usize, arity: usize, t1: usize, t2: usize, t3: usize, t4: usize) -> bool
    ensures { result ≡ functor_fits n (record { arity = arity; argument_types = four t1 t2 t3 t4 }) }
{
    if MAX_ARITY < arity {
        return false;
    }
    if !slot_ok(n, arity, 0, t1) {
        return false;
    }
    if !slot_ok(n, arity, 1, t2) {
        return false;
    }
    if !slot_ok(n, arity, 2, t3) {
        return false;
    }
    slot_ok(n, arity, 3, t4)
}

fn functors_ok(file: &[u8], n: usize, start: usize) -> bool
    requires formed { Formed file.now }
    requires stands { Stands file.now functors start }
    ensures { result ≡ all (functor_fits n) (functors_at file.now start) }
{
    let mut i = start;
    while i != 0 {
        let Record::Functor {
            next,
            arity,
            t1,
            t2,
            t3,
            t4,
        } = record_at(file, i)
        else {
            return false;
        };
        if !functor_ok(n, arity, t1, t2, t3, t4) {
            return false;
        }
        i = next;
    }
    true
}

fn type_ok(file: &[u8], n: usize, start: usize) -> bool
    requires formed { Formed file.now }
    requires stands { Stands file.now functors start }
    ensures { result ≡ type_fits n (functors_at file.now start) }
{
    let count = chain_length(file, start);
    if count == 0 {
        return false;
    }
    if MAX_FUNCTORS < count {
        return false;
    }
    functors_ok(file, n, start)
}

fn each_type_ok(file: &[u8], n: usize, start: usize) -> bool
    requires formed { Formed file.now }
    requires stands { Stands file.now types start }
    ensures { result ≡ all (type_fits n) (types_at file.now start) }
{
    let mut i = start;
    while i != 0 {
        let Record::Type { next, functors } = record_at(file, i) else {
            return false;
        };
        if !type_ok(file, n, functors) {
            return false;
        }
        i = next;
    }
    true
}

// All types of the file.
pub fn types_ok(file: &[u8]) -> bool
    requires { Formed file.now }
    ensures { result ≡ types_ok (program file.now).types }
{
    let first = word(file, 0, HEADER_TYPES);
    let n = chain_length(file, first);
    if MAX_TYPES < n {
        return false;
    }
    each_type_ok(file, n, first)
}
