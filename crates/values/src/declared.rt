// The entry's variables.
ghost use Rattle.std.specs.Prelude.{◌≡◌};
ghost use Rattle.language.specs.File.{variables};
ghost use Rattle.language.specs.Lists.{is_none};
ghost use Rattle.language.specs.Program.{parameters_from};
ghost use Rattle.chains.specs.Formed.{Formed, Stands, variables_at};

use chains::word;
use language::format::{NEXT, VARIABLE_MODE};

// Whether none of the variables from record start on is in or out.
pub fn all_local(file: &[u8], start: usize) -> bool
    requires formed { Formed file.now }
    requires stands { Stands file.now variables start }
    ensures { result ≡ is_none (parameters_from 1 (variables_at file.now start)) }
{
    let mut i = start;
    while i != 0 {
        if word(file, i, VARIABLE_MODE) != 0 {
            return false;
        }
        i = word(file, i, NEXT);
    }
    true
}
