// A construct, and the arguments of a construct or an arm.
ghost use Rattle.std.specs.Prelude.{◌<◌};
ghost use Rattle.language.specs.Format.{max_arity};
ghost use Rattle.language.specs.File.{record_count};
ghost use Rattle.chains.specs.Formed.{Formed};
ghost use Rattle.chains.specs.Shapes.{IsConstruct};
ghost use Rattle.declarations.specs.Declares.{Declares};
ghost use Rattle.declarations.specs.Own.{Own};
ghost use Rattle.typing.specs.Settings.{ArgumentTested, ArgumentsTested, ArmTested, GoalTested};

use chains::word;
use declarations::{FILE_PLACES, OWN_PLACES, functor, has_type, variable};
use language::format::{
    FUNCTOR_ARITY, FUNCTOR_TYPES, GOAL_X, MAX_ARITY, TERM_ARGUMENTS, TERM_FUNCTOR, VARIABLE_TYPE,
};

// Argument k, counted from 0, of record i, against the functor of record g: a variable of its type, or 0 past the arity.
fn argument_ok(file: &[u8], own: &[u16; OWN_PLACES], g: usize, k: usize, i: usize) -> bool
    requires formed { Formed file.now × Own file.now own.now }
    requires k_lt_max_arity { (k < max_arity) × (g < record_count file.now) × (i < record_count file.now) }
    ensures { ArgumentTested file.now own.now g k i result }
{
    let a = word(file, i, TERM_ARGUMENTS + k);
    if k < word(file, g, FUNCTOR_ARITY) {
        return has_type(file, own, word(file, g, FUNCTOR_TYPES + k), a);
    }
    a == 0
}

// The four arguments of record i against the functor of record g.
fn arguments_ok(file: &[u8], own: &[u16; OWN_PLACES], g: usize, i: usize) -> bool
    requires formed { Formed file.now × Own file.now own.now }
    requires g_bound { (g < record_count file.now) × (i < record_count file.now) }
    ensures { ArgumentsTested file.now own.now g i result }
{
    for k in 0..MAX_ARITY {
        if !argument_ok(file, own, g, k, i) {
            return false;
        }
    }
    true
}

// The arm of record i against functor n, of record g: the number and the arguments. There may be no such functor.
pub fn arm_fits(file: &[u8], own: &[u16; OWN_PLACES], g: usize, n: usize, i: usize) -> bool
    requires formed { Formed file.now × Own file.now own.now }
    requires g_bound { (g < record_count file.now) × (i < record_count file.now) }
    ensures { ArmTested file.now own.now g n i result }
{
    if g == 0 {
        return false;
    }
    if word(file, i, TERM_FUNCTOR) != n {
        return false;
    }
    arguments_ok(file, own, g, i)
}

// The construct of record i.
pub fn construct_ok(
    file: &[u8],
    table: &[u16; FILE_PLACES],
    own: &[u16; OWN_PLACES],
    i: usize,
) -> bool
    requires declares { Declares file.now table.now × Own file.now own.now }
    requires construct { IsConstruct file.now i × (i < record_count file.now) }
    ensures { GoalTested file.now own.now i result }
{
    let v = variable(own, word(file, i, GOAL_X));
    if v == 0 {
        return false;
    }
    let g = functor(
        table,
        word(file, v, VARIABLE_TYPE),
        word(file, i, TERM_FUNCTOR),
    );
    if g == 0 {
        return false;
    }
    arguments_ok(file, own, g, i)
}
