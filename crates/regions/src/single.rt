// Number 5 of single records, by the window of their procedure.
ghost use Rattle.std.specs.Prelude.{◌≡◌};
ghost use Rattle.language.specs.File;
ghost use Rattle.chains.specs.Formed.{Formed, Stands, edges_at, arms_at};
ghost use Rattle.chains.specs.Shapes.{IsCall};
ghost use Rattle.owners.specs.Everywhere.{record_test};
ghost use Rattle.regions.specs.Firsts.{Firsts};
ghost use Rattle.regions.specs.Single.{agrees};
ghost use Rattle.regions.specs.Here.{Here, arms_in};

use crate::terms::in_targets;
use chains::word;
use language::format;
use language::format::PLACES;
use tables::{edges, home};

// The arguments of the arms from record start on are in the targets of their edges, which are in the chain at record edges.
fn arms_ok(
    file: &[u8],
    own: &[u64],
    edges: usize,
    start: usize,
    firsts: &mut [usize; PLACES],
) -> bool
    requires formed { Formed file.now }
    requires stands { Stands file.now File.edges edges }
    requires stands_2 { Stands file.now File.arms start }
    requires firsts { Firsts file.now firsts.old }
    ensures value { result ≡ arms_in own.now (edges_at file.now edges) (arms_at file.now start) }
    ensures firsts_2 { Firsts file.now firsts.new }
{
    let mut a = start;
    while a != 0 {
        if !in_targets(file, own, edges, a, firsts) {
            return false;
        }
        a = word(file, a, format::NEXT);
    }
    true
}

// The two variables of an assign are in one region; the arguments of a construct and of a switch's arms are in their edges' targets.
// Record i is no call.
pub fn record_ok(file: &[u8], own: &[u64], i: usize, firsts: &mut [usize; PLACES]) -> bool
    requires here { Here file.now own.now i }
    requires fact { IsCall file.now i → ⊥ }
    requires firsts { Firsts file.now firsts.old }
    ensures value { result ≡ record_test (agrees file.now) file.now i }
    ensures firsts_2 { Firsts file.now firsts.new }
{
    match word(file, i, format::KIND) {
        format::ASSIGN => {
            let x = home(own, word(file, i, format::GOAL_X));
            let y = home(own, word(file, i, format::ASSIGN_Y));
            x == y
        }
        format::CONSTRUCT => {
            let r = home(own, word(file, i, format::GOAL_X));
            in_targets(file, own, edges(own, r), i, firsts)
        }
        format::SWITCH => {
            let r = home(own, word(file, i, format::GOAL_X));
            let start = word(file, i, format::SWITCH_ARMS);
            arms_ok(file, own, edges(own, r), start, firsts)
        }
        _ => true,
    }
}
