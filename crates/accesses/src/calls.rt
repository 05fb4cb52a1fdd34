// What a call reads and gives: its arguments at the places of the callee's in and out variables.
ghost use Rattle.std.specs.Prelude.{◌≡◌, true, length};
ghost use Rattle.language.specs.File.{arguments};
ghost use Rattle.language.specs.Program.{Signature, call};
ghost use Rattle.language.specs.Typing.{typing_ok};
ghost use Rattle.language.specs.Answers.{program};
ghost use Rattle.chains.specs.Shapes.{IsCall};
ghost use Rattle.chains.specs.Formed.{Formed, Stands, arguments_at};
ghost use Rattle.accesses.specs.Gathering.{passed_in};
ghost use Rattle.accesses.specs.Matching.{CallMatches};
ghost use Rattle.accesses.specs.Parameters.{told_mode, DeclaredSets};
ghost use Rattle.accesses.specs.Accesses.{Accesses};
ghost use Rattle.tables.specs.Window.{FileTable};
ghost use Rattle.accesses.specs.Fitting.{AccessFits};

use crate::steps::{give, no_access, read};
use chains::word;
use language::format::{ARGUMENT_VARIABLE, CALL_ARGUMENTS, CALL_PROCEDURE, NEXT};
use sets::Set;
use tables::{Access, INS, OUTS, TABLE, set_at, word_at};

// y stands at the place of variable x, an in variable if it is in ins, else an out variable.
fn pass(a: Access, ins: Set, x: usize, y: usize) -> Access
    ensures { result ≡ passed_in (told_mode ins x) a y }
{
    if ins.has(x) { read(a, y) } else { give(a, y) }
}

// The call at record i, where there are that many procedures.
pub fn call_access(file: &[u8], table: &[u64; TABLE], procedures: usize, i: usize) -> Access
    requires formed { Formed file.now }
    requires file_table { FileTable file.now table.now }
    requires procedures_value { procedures ≡ length (program file.now).procedures }
    requires call { IsCall file.now i }
    requires file_value { typing_ok (program file.now) ≡ true }
    ensures { AccessFits file.now i result }
{
    let q = word(file, i, CALL_PROCEDURE);
    let y = word(file, i, CALL_ARGUMENTS);
    called_access(file, table, procedures, q, y)
}

// What a call of procedure q reads and gives, its argument records from y on. A procedure that is not there has no variables.
fn called_access(file: &[u8], table: &[u64; TABLE], procedures: usize, q: usize, y: usize) -> Access
    requires formed { Formed file.now }
    requires file_table { FileTable file.now table.now }
    requires procedures_value { procedures ≡ length (program file.now).procedures }
    requires stands { Stands file.now arguments y }
    requires file_value { typing_ok (program file.now) ≡ true }
    ensures { Accesses (program file.now) (call q (arguments_at file.now y)) result }
{
    if q >= procedures {
        return no_access();
    }
    let window = word_at(table, q);
    let ins = set_at(table, window + INS);
    let outs = set_at(table, window + OUTS);
    match_arguments(file, ins, outs, y)
}

// The arguments from record y0 on at the places of the variables of ins and outs, in rising number.
fn match_arguments(file: &[u8], ins: Set, outs: Set, y0: usize) -> Access
    requires formed { Formed file.now }
    requires stands { Stands file.now arguments y0 }
    ensures { (S : Signature) → DeclaredSets S ins outs → CallMatches S.variables (arguments_at file.now y0) result }
{
    let both = ins.union(outs);
    let mut a = no_access();
    let mut y = y0;
    for x in both.members() {
        if y == 0 {
            return a;
        }
        a = pass(a, ins, x, word(file, y, ARGUMENT_VARIABLE));
        y = word(file, y, NEXT);
    }
    a
}
