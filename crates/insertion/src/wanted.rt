// What is wanted, by the window of a procedure.
ghost use Rattle.std.specs.Prelude.{◌≡◌, List, ℕ};
ghost use Rattle.language.specs.Program.{Signature};
ghost use Rattle.language.specs.Lifetimes;
ghost use Rattle.tables.specs.Window.{Window};

use sets::Set;
use tables::{KEPT, reach_all, set_at};

// "Wanted at a point: the kept regions and the reach of the live variables."
pub fn wanted_in(own: &[u64], live: Set) -> Set
    ensures { (f : List ℕ) (S : Signature) → Window f S own.now → result ≡ Lifetimes.wanted S live }
{
    let kept = set_at(own, KEPT);
    kept.union(reach_all(own, live))
}
