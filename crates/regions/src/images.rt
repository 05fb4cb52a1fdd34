// The images of a callee's regions, and what the call does to regions by them.
ghost use Rattle.std.specs.Prelude.{◌≡◌};
ghost use Rattle.sets.specs.Members.{image};
ghost use Rattle.regions.specs.Pairs.{images_in};
ghost use Rattle.regions.specs.Doubled.{Doubled};
ghost use Rattle.regions.specs.Images.{ImageEffect};

use chains::entry;
use sets::Set;
use tables::{BORN, DEAD, Effect, KEPT, PASSED, set_at};

// The images of the regions rs.
fn images_of(images: &[usize], rs: Set) -> Set
    ensures { result ≡ image (images_in images.now) rs }
{
    let mut found = Set::EMPTY;
    for r in rs.members() {
        found = found.union(Set::of(entry(images, r)));
    }
    found
}

// The images that two of the regions rs share.
fn shared_images(images: &[usize], rs: Set) -> Set
    ensures { Doubled (images_in images.now) rs result }
{
    let mut seen = Set::EMPTY;
    let mut twice = Set::EMPTY;
    for r in rs.members() {
        let one = Set::of(entry(images, r));
        twice = twice.union(seen.intersection(one));
        seen = seen.union(one);
    }
    twice
}

// "a call needs the images of the callee's dead and kept regions", bears those of its born ones and ends those of its dead ones.
pub fn image_effect(images: &[usize], callee: &[u64]) -> Effect
    ensures { ImageEffect (images_in images.now) callee.now result }
{
    let dead = set_at(callee, DEAD);
    let born = set_at(callee, BORN);
    let needs = images_of(images, dead.union(set_at(callee, KEPT)));
    let bears = images_of(images, born);
    let ends = images_of(images, dead);
    let twice = shared_images(images, set_at(callee, PASSED));
    let both = ends.union(bears).intersection(twice);
    Effect {
        needs,
        bears,
        ends,
        unshared: both.same(Set::EMPTY),
    }
}
