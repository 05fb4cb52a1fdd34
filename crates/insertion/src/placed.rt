// What is created before a step and removed after it, from what is wanted there and what the step does to regions.
ghost use Rattle.std.specs.Prelude.{◌≡◌};
ghost use Rattle.sets.specs.Sets.{◌∪◌, ◌∖◌};

use sets::Set;

// "Create what the goal needs or what is wanted after it, where it is not wanted before and the callee doesn't bear it."
pub fn created_for(needs: Set, bears: Set, before: Set, after: Set) -> Set
    ensures { result ≡ ((needs ∪ after) ∖ before) ∖ bears }
{
    needs.union(after).difference(before).difference(bears)
}

// What is held after a step that is met with `held` held, and not wanted.
pub fn removed_after(held: Set, ends: Set, bears: Set, after: Set) -> Set
    ensures { result ≡ ((held ∖ ends) ∪ bears) ∖ after }
{
    held.difference(ends).union(bears).difference(after)
}
