// Words for what a walk over goals carries. They are for callers elsewhere: the walks of numbers 4 and 8 carry a struct each.
ghost use Rattle.std.specs.Prelude.{◌≡◌, replicate};
ghost use Rattle.walks.specs.Carried.{walk_words};

// How many they are.
pub const WALK_WORDS: usize = 2;

// What a walk starts with, before its caller puts in what holds there: zeros.
pub fn blank_walk() -> [u64; WALK_WORDS]
    ensures { result ≡ replicate walk_words 0 }
{
    [0; WALK_WORDS]
}

#[cfg(test)]
mod tests {
    use super::*;

    // A set is stored as the sum of its members' powers of two, so one with no member is 0.
    #[test]
    fn begins_with_two_empty_sets(rt: HostRuntime) {
        assert_eq!(rt; blank_walk(), [0, 0]);
    }
}
