// The callee's variable that each argument of a call matches, and its mode.
ghost use Rattle.std.specs.Prelude.{◌≡◌, ◌+◌, ◌-◌, ◌<◌, get_or, set};
ghost use Rattle.language.specs.File;
ghost use Rattle.language.specs.File.{record_count};
ghost use Rattle.language.specs.Format.{max_records};
ghost use Rattle.language.specs.Program.{parameters_from};
ghost use Rattle.chains.specs.Formed.{Formed, Stands, variables_at};
ghost use Rattle.chains.specs.Records.{chain_records};
ghost use Rattle.tables.specs.Window.{first_place};
ghost use Rattle.plans.specs.Passes.{TypedAndFilled, slots_from, modes_from, placed, placed_at, placing};

use crate::{IN_LINKS, OUT_LINKS, PLAN};
use language::format;
use records::word;
use tables::{FIRST, start_of, word_at};

// Where the variables and the modes of arguments stand in the plan, before the links replace them.
pub const SLOTS: usize = IN_LINKS;

pub const MODES: usize = OUT_LINKS;

// The argument at record a matches variable x, which has this mode.
fn put_match(plan: &mut [usize; PLAN], a: usize, x: usize, mode: usize)
    requires { a < max_records }
    ensures { plan.new ≡ set (set plan.old (slots_from + a) x) (modes_from + a) mode }
{
    plan[SLOTS + a] = x;
    plan[MODES + a] = mode;
}

// The arguments in the chain at record arguments, beside the in and out variables of the procedure with the window callee.
fn match_call(file: &[u8], callee: &[u64], arguments: usize, plan: &mut [usize; PLAN])
    requires formed { Formed file.now }
    requires stands { Stands file.now File.variables (get_or callee.now first_place 0) }
    requires stands_2 { Stands file.now File.arguments arguments }
    ensures { plan.new ≡ placed (parameters_from 1 (variables_at file.now (get_or callee.now first_place 0))) (chain_records file.now arguments) plan.old }
{
    let mut x = word_at(callee, FIRST);
    let mut k = 0;
    let mut a = arguments;
    while x != 0 {
        let next = word(file, x, format::NEXT);
        let mode = word(file, x, format::VARIABLE_MODE);
        k += 1;
        if mode != 0 {
            if a == 0 {
                return;
            }
            put_match(plan, a, k, mode);
            a = word(file, a, format::NEXT);
        }
        x = next;
    }
}

// Record i, if it is a call.
fn match_record(file: &[u8], table: &[u64], i: usize, plan: &mut [usize; PLAN])
    requires typed_and_filled { TypedAndFilled file.now table.now }
    requires i_nonzero { (0 < i) × (i < record_count file.now) }
    ensures { plan.new ≡ placed_at file.now i plan.old }
{
    if word(file, i, format::KIND) != format::CALL {
        return;
    }
    let start = start_of(table, word(file, i, format::CALL_PROCEDURE));
    let arguments = word(file, i, format::CALL_ARGUMENTS);
    match_call(file, &table[start..], arguments, plan);
}

// The arguments of all calls.
pub fn match_calls(file: &[u8], table: &[u64], plan: &mut [usize; PLAN])
    requires { TypedAndFilled file.now table.now }
    ensures { plan.new ≡ placing file.now (record_count file.now - 1) 1 plan.old }
{
    let n = word(file, 0, format::HEADER_COUNT);
    for i in 1..n {
        match_record(file, table, i, plan);
    }
}
