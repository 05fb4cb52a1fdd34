// What number 4 carries.
ghost use Rattle.std.specs.Prelude.{◌≡◌};
ghost use Rattle.sets.specs.Sets.{◌∪◌, ◌∩◌};
ghost use Rattle.values.specs.Valuing.{both};
ghost use Rattle.values.specs.Carrying.{RowAfter};

use sets::Set;
use tables::{ROWS, gives_at, marked, reads_at};

// The variables with a value on every path that leads here, and those with one on some path.
#[derive(Clone, Copy)]
pub struct Valuation {
    pub every: Set,
    pub some: Set,
}

impl Valuation {
    // Where paths meet: another path has those of `other`.
    pub fn join(self, other: Valuation) -> Valuation
        ensures { result ≡ both (self.every ∩ other.every) (self.some ∪ other.some) }
    {
        Valuation {
            every: self.every.intersection(other.every),
            some: self.some.union(other.some),
        }
    }

    // After the step or arm of row i: what it reads has a value on every path, what it gives has one on no path.
    pub fn after(self, rows: &[u64; ROWS], i: usize) -> Option<Valuation>
        ensures { RowAfter rows.now i self result }
    {
        let gives = gives_at(rows, i);
        if !reads_at(rows, i).is_subset(self.every) {
            return None;
        }
        if !marked(rows, i) {
            return None;
        }
        if !gives.intersection(self.some).is_empty() {
            return None;
        }
        Some(Valuation {
            every: self.every.union(gives),
            some: self.some.union(gives),
        })
    }
}
