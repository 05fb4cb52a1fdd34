// What variables reach, by the window of their procedure.
ghost use Rattle.std.specs.Prelude.{◌≡◌};
ghost use Rattle.sets.specs.Members.{union_over};
ghost use Rattle.tables.specs.Window.{reach_in};

use crate::window::reach;
use sets::Set;

// The regions that the variables xs reach.
pub fn reach_all(own: &[u64], xs: Set) -> Set
    ensures { result ≡ union_over (reach_in own.now) xs }
{
    let mut found = Set::EMPTY;
    for x in xs.members() {
        found = found.union(reach(own, x));
    }
    found
}
