// Number 8, procedure by procedure.
ghost use Rattle.std.specs.Prelude.{◌≡◌, ◌<◌, length, get_or};
ghost use Rattle.language.specs.File;
ghost use Rattle.language.specs.Program.{procedure_at};
ghost use Rattle.language.specs.Checking.{procedure_rules, rules_ok};
ghost use Rattle.language.specs.Answers.{program};
ghost use Rattle.chains.specs.Formed.{Formed, Stands};
ghost use Rattle.tables.specs.Window.{body_place};
ghost use Rattle.tables.specs.Filled.{Prepared};
ghost use Rattle.checking.specs.Procedures.{WindowChecked};

use crate::carried::Carried;
use crate::walk::goals;
use chains::word;
use language::format::{HEADER_PROCEDURES, NEXT};
use tables::{BODY, BORN, DEAD, INS, KEPT, OUTS, ROWS, TABLE, set_at, word_at};

// Whether the procedure with this window keeps the rules. "A procedure starts with its dead and kept regions held and its in variables sound." "At
// the end: born and kept regions held, no other; out variables sound."
fn window_ok(file: &[u8], rows: &[u64; ROWS], own: &[u64]) -> bool
    requires formed { Formed file.now }
    requires stands { Stands file.now File.goals (get_or own.now body_place 0) }
    ensures { WindowChecked file.now rows.now own.now result }
{
    let kept = set_at(own, KEPT);
    let before = Carried {
        held: set_at(own, DEAD).union(kept),
        sound: set_at(own, INS),
    };
    match goals(file, rows, own, before, word_at(own, BODY)) {
        None => false,
        Some(after) => {
            if !after.held.same(set_at(own, BORN).union(kept)) {
                return false;
            }
            set_at(own, OUTS).is_subset(after.sound)
        }
    }
}

// Whether procedure q keeps the rules.
fn procedure_ok(file: &[u8], table: &[u64], rows: &[u64; ROWS], q: usize) -> bool
    requires formed { Formed file.now }
    requires prepared { Prepared file.now table.now rows.now }
    requires q_in_bounds { q < length (program file.now).procedures }
    ensures { result ≡ procedure_rules (program file.now) (procedure_at (program file.now) q) }
{
    let start = word_at(table, q);
    window_ok(file, rows, &table[start..])
}

// Whether every procedure keeps the rules: number 8.
pub fn rules_ok(file: &[u8], table: &[u64; TABLE], rows: &[u64; ROWS]) -> bool
    requires formed { Formed file.now }
    requires prepared { Prepared file.now table.now rows.now }
    ensures { result ≡ rules_ok (program file.now) }
{
    let mut i = word(file, 0, HEADER_PROCEDURES);
    let mut q = 0;
    while i != 0 {
        if !procedure_ok(file, table, rows, q) {
            return false;
        }
        q += 1;
        i = word(file, i, NEXT);
    }
    true
}
