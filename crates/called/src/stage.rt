// Number 17 as a stage.
ghost use Rattle.std.specs.Prelude.{◌≡◌, true};
ghost use Rattle.language.specs.CallChains.{reached_ok};
ghost use Rattle.language.specs.Typing.{typing_ok};
ghost use Rattle.language.specs.Answers.{program};
ghost use Rattle.chains.specs.Formed.{Formed};
ghost use Rattle.called.specs.Linked.{OwnersIn, LinksLeft};

use crate::finding::reaches_all;
use crate::linking::link_calls;
use language::format::{MAX_PROCEDURES, MAX_RECORDS};

// Whether chains of calls from the entry reach every procedure. In `owners` stands the procedure that each record belongs to; a call's place gets the link to
// the call before it of the same procedure.
pub fn all_reached(file: &[u8], owners: &mut [u16; MAX_RECORDS]) -> bool
    requires formed { Formed file.now }
    requires file_value { typing_ok (program file.now) ≡ true }
    requires owners_in { OwnersIn file.now owners.old }
    ensures value { result ≡ reached_ok (program file.now) }
    ensures links_left { LinksLeft file.now owners.old owners.new }
{
    let mut lasts = [0; MAX_PROCEDURES];
    link_calls(file, owners, &mut lasts);
    reaches_all(file, owners, &lasts)
}
