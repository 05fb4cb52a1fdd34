// What a call reads of its callee, by the callee's number.
ghost use Rattle.std.specs.Prelude.{◌≡◌, ◌<◌};
ghost use Rattle.language.specs.Format.{max_procedures};
ghost use Rattle.plans.specs.Passes.{put_callee, callees_of};

use crate::{CALLEE_BODY, CALLEE_BORN, CALLEE_HELD, CALLEE_ROW, CALLEE_SIZE, CALLEES};
use language::format::MAX_PROCEDURES;
use tables::{BODY, BORN, DEAD, KEPT, VARIABLES, set_at, start_of, word_at};

// The four words of procedure q, whose window is own.
fn put_callee(own: &[u64], q: usize, callees: &mut [u64; CALLEES])
    requires { q < max_procedures }
    ensures { callees.new ≡ put_callee own.now q callees.old }
{
    let held = set_at(own, DEAD).union(set_at(own, KEPT));
    let born = set_at(own, BORN);
    let at = CALLEE_ROW * q;
    callees[at + CALLEE_BODY] = word_at(own, BODY) as u64;
    callees[at + CALLEE_SIZE] = word_at(own, VARIABLES) as u64;
    callees[at + CALLEE_HELD] = held.stored();
    callees[at + CALLEE_BORN] = born.stored();
}

// Those of all procedures.
pub fn fill_callees(table: &[u64], callees: &mut [u64; CALLEES])
    ensures { callees.new ≡ callees_of table.now callees.old }
{
    for q in 0..MAX_PROCEDURES {
        let start = start_of(table, q);
        put_callee(&table[start..], q, callees);
    }
}
