// What number 8 carries.
ghost use Rattle.checking.specs.Carried.{JoinAfter};

use sets::Set;

// The held regions and the sound variables.
#[derive(Clone, Copy)]
pub struct Carried {
    pub held: Set,
    pub sound: Set,
}

impl Carried {
    // "Arms end with equal held regions; sound afterwards is sound after every arm." Nothing where they differ.
    pub fn join(self, other: Carried) -> Option<Carried>
        ensures { JoinAfter self other result }
    {
        if !self.held.same(other.held) {
            return None;
        }
        Some(Carried {
            held: self.held,
            sound: self.sound.intersection(other.sound),
        })
    }
}
