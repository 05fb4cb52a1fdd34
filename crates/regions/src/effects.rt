// What a step does to regions.
ghost use Rattle.std.specs.Prelude.{◌≡◌};
ghost use Rattle.chains.specs.Shapes.{IsCall};
ghost use Rattle.regions.specs.Here.{Here};
ghost use Rattle.regions.specs.Effects.{SomeStep, EffectAt, region_effect};

use chains::{goal, word};
use language::{Goal, format};
use sets::Set;
use tables::{Effect, home};

// A step that needs, bears and ends a region each, 0 for none.
pub fn region_effect(needs: usize, bears: usize, ends: usize) -> Effect
    ensures { result ≡ region_effect needs bears ends }
{
    Effect {
        needs: Set::of(needs),
        bears: Set::of(bears),
        ends: Set::of(ends),
        unshared: true,
    }
}

// "A construct needs X's region"; a create bears its region, a remove needs and ends it. A step that is no call stands at record i.
pub fn step_effect(file: &[u8], own: &[u64], i: usize) -> Effect
    requires here { Here file.now own.now i }
    requires fact { (IsCall file.now i → ⊥) × SomeStep file.now i }
    ensures { EffectAt file.now i result }
{
    match goal(file, i) {
        Goal::Construct => region_effect(home(own, word(file, i, format::GOAL_X)), 0, 0),
        Goal::Create => region_effect(0, word(file, i, format::LIFETIME_REGION), 0),
        Goal::Remove => {
            let r = word(file, i, format::LIFETIME_REGION);
            region_effect(r, 0, r)
        }
        _ => region_effect(0, 0, 0),
    }
}
