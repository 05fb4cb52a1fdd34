// Creates and removes.
ghost use Rattle.std.specs.Prelude.{◌≡◌, ◌≤◌, ◌<◌};
ghost use Rattle.sets.specs.Members.{members};
ghost use Rattle.language.specs.Format.{places};
ghost use Rattle.records.specs.Sizes.{word_end};
ghost use Rattle.laying.specs.Lays.{Lays};
ghost use Rattle.laying.specs.Marks.{more_of, marks};

use crate::place::{refer, store};
use language::format::PLACES;
use sets::Set;
use writer::behind;

// Not 0 where the record of another number follows, or where the chain goes on behind the last of them.
fn more(next: usize, on: usize) -> usize
    ensures value { next < places → result ≡ 1 }
    ensures value_2 { places ≤ next → result ≡ on }
{
    if next < PLACES { 1 } else { on }
}

// Not 0 where a record for a member follows, or the chain goes on behind them.
pub fn follows(s: Set, on: usize) -> usize
    ensures { result ≡ more_of (members s) on }
{
    more(s.after(0), on)
}

// Lays a record of that kind for each member, in rising number. Behind them the chain goes on where `on` is not 0.
pub fn lay_marks(out: &mut [u8], kind: usize, s: Set, on: usize, first: usize) -> usize
    requires { kind < word_end }
    ensures { Lays out.old out.new first result (marks kind (members s) on first) }
{
    let mut at = first;
    for r in s.members() {
        let next = s.after(r);
        let end = behind(at);
        let w = refer(more(next, on), end);
        store(out, at, kind, w, r, 0, 0, 0, 0, 0);
        at = end;
    }
    at
}
