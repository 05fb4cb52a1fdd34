// A call's arguments against the callee's in and out variables, in chain order.
ghost use Rattle.std.specs.Prelude.{◌<◌};
ghost use Rattle.language.specs.File.{variables, arguments, record_count};
ghost use Rattle.chains.specs.Formed.{Stands};
ghost use Rattle.chains.specs.Shapes.{IsCall};
ghost use Rattle.declarations.specs.Declares.{Declares};
ghost use Rattle.declarations.specs.Own.{Own};
ghost use Rattle.typing.specs.Settings.{ArgumentsMatched, GoalTested};

use chains::word;
use declarations::{FILE_PLACES, OWN_PLACES, has_type, parameter, procedure};
use language::format::{
    ARGUMENT_VARIABLE, CALL_ARGUMENTS, CALL_PROCEDURE, NEXT, PROCEDURE_VARIABLES, VARIABLE_TYPE,
};

// The arguments from record first on against the callee's variables from record start on.
fn match_arguments(
    file: &[u8],
    table: &[u16; FILE_PLACES],
    own: &[u16; OWN_PLACES],
    start: usize,
    first: usize,
) -> bool
    requires declares { Declares file.now table.now × Own file.now own.now }
    requires stands { Stands file.now variables start × Stands file.now arguments first }
    ensures { ArgumentsMatched file.now own.now start first result }
{
    let mut v = parameter(table, start);
    let mut y = first;
    while v != 0 {
        if y == 0 {
            return false;
        }
        let t = word(file, v, VARIABLE_TYPE);
        let x = word(file, y, ARGUMENT_VARIABLE);
        if !has_type(file, own, t, x) {
            return false;
        }
        y = word(file, y, NEXT);
        v = parameter(table, word(file, v, NEXT));
    }
    y == 0
}

// The call of record i.
pub fn call_ok(file: &[u8], table: &[u16; FILE_PLACES], own: &[u16; OWN_PLACES], i: usize) -> bool
    requires declares { Declares file.now table.now × Own file.now own.now }
    requires call { IsCall file.now i × (i < record_count file.now) }
    ensures { GoalTested file.now own.now i result }
{
    let callee = procedure(table, word(file, i, CALL_PROCEDURE));
    if callee == 0 {
        return false;
    }
    let start = word(file, callee, PROCEDURE_VARIABLES);
    match_arguments(file, table, own, start, word(file, i, CALL_ARGUMENTS))
}
