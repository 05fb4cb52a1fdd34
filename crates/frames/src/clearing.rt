// Zeros where a callee's values will stand. A part of a known length is quicker to fill than one as long as the callee has variables.
ghost use Rattle.std.specs.Prelude.{◌≡◌, ◌+◌, ◌≤◌, length};
ghost use Rattle.language.specs.Format.{max_variables};
ghost use Rattle.word_machine.specs.Machine.{cleared, blocks};

use language::format::MAX_VARIABLES;

// Zero in N words from a place on.
fn clear_words<const N: usize>(frames: &mut [u32], at: usize)
    requires { at + N ≤ length frames.old }
    ensures { frames.new ≡ cleared at N frames.old }
{
    frames[at..at + N].fill(0);
}

// Zero in the words of n values from a place on: in 8, 16 or all 64.
pub fn clear(frames: &mut [u32], first: usize, n: usize)
    requires { first + max_variables ≤ length frames.old }
    ensures { frames.new ≡ cleared first (blocks n) frames.old }
{
    if n < 9 {
        clear_words::<8>(&mut frames[..], first);
        return;
    }
    if n < 17 {
        clear_words::<16>(&mut frames[..], first);
        return;
    }
    clear_words::<MAX_VARIABLES>(&mut frames[..], first);
}
