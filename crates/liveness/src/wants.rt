// What is wanted at a point, from a short copy of the procedure's window.
ghost use Rattle.std.specs.Prelude.{◌≡◌, length};
ghost use Rattle.sets.specs.Sets.{apart};
ghost use Rattle.liveness.specs.Wants.{want_words, wanted_in, Wants};

use crate::{WANTS, WANTS_KEPT};
use language::format::PLACES;
use sets::Set;
use tables::{KEPT, reach, set_at};

// Copies the reach of each variable and the kept regions of a window.
pub fn list_wants(own: &[u64], wants: &mut [u64; WANTS])
    requires { want_words ≡ length wants.old }
    ensures { Wants own.now wants.new }
{
    for x in 0..PLACES {
        wants[x] = reach(own, x).stored();
    }
    wants[WANTS_KEPT] = set_at(own, KEPT).stored();
}

// "Wanted at a point: the kept regions and the reach of the live variables."
fn wanted(wants: &[u64; WANTS], live: Set) -> Set
    ensures { result ≡ wanted_in wants.now live }
{
    let mut found = Set::EMPTY;
    for x in live.members() {
        found = found.union(Set::loaded(wants[x]));
    }
    Set::loaded(wants[WANTS_KEPT]).union(found)
}

// Whether none of the regions rs is wanted where `live` is live.
pub fn unwanted(wants: &[u64; WANTS], rs: Set, live: Set) -> bool
    ensures { result ≡ apart rs (wanted_in wants.now live) }
{
    if rs.is_empty() {
        return true;
    }
    rs.intersection(wanted(wants, live)).is_empty()
}
