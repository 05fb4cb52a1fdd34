// Words moved between lent memory and an array of the caller's: a frame is saved, or put back (C-20).
ghost use Rattle.std.specs.Prelude.{◌+◌, ◌≤◌, ◌≡◌, length};
ghost use Rattle.memory.specs.Moved.{moved};

// n words, from place p of one to place q of the other. `copy_from_slice` would call the C library's copy, for 38 instructions more a frame: up to 11 in 100
// of all steps where conditions are short.
pub fn move_words(from: &[u32], p: usize, to: &mut [u32], q: usize, n: usize)
    requires n_in_bounds { p + n ≤ length from.now }
    requires n_in_bounds_2 { q + n ≤ length to.old }
    ensures { to.new ≡ moved p q n from.now to.old }
{
    for i in (0..n).rev() {
        to[q + i] = from[p + i];
    }
}
