// Which variables are sound, by the window of their procedure.
ghost use Rattle.std.specs.Prelude.{◌≡◌, ℕ, ◌<◌, Bool};
ghost use Rattle.sets.specs.Members.{keep};
ghost use Rattle.language.specs.Format.{places};
ghost use Rattle.language.specs.Program.{Signature};
ghost use Rattle.language.specs.Checking.{sound_given, sound_without};
ghost use Rattle.checking.specs.Sound.{ReachesAll};

use sets::Set;
use tables::reach;

// Those of the variables that pass the test.
fn kept<F: Fn(usize) -> bool>(variables: Set, passes: F) -> Set
    requires { F.IsAlwaysCallable passes }
    ensures { (p : ℕ → Bool) → ((x : ℕ) (b : Bool) → x < places → F.post passes x b → b ≡ p x) → result ≡ keep p variables }
{
    let mut found = Set::EMPTY;
    for x in variables.members() {
        if passes(x) {
            found = found.union(Set::of(x));
        }
    }
    found
}

// "A variable given a value is sound if its whole reach is then held."
pub fn sound_given(own: &[u64], given: Set, held: Set, sound: Set) -> Set
    ensures { (S : Signature) → ReachesAll S own.now → result ≡ sound_given S given held sound }
{
    let found = kept(given, |x| reach(own, x).is_subset(held));
    sound.difference(given).union(found)
}

// "variables reaching it stop being sound": those that reach none of the regions `gone` stay.
pub fn sound_without(own: &[u64], gone: Set, sound: Set) -> Set
    ensures { (S : Signature) → ReachesAll S own.now → result ≡ sound_without S gone sound }
{
    if gone.is_empty() {
        return sound;
    }
    kept(sound, |x| reach(own, x).intersection(gone).is_empty())
}
