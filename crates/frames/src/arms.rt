// The arm of a functor, along a switch's chain of arms.
ghost use Rattle.std.specs.Prelude.{◌≡◌, ◌<◌};
ghost use Rattle.language.specs.File.{record_count};
ghost use Rattle.chains.specs.Formed.{Formed};
ghost use Rattle.chains.specs.Records.{chain_records};
ghost use Rattle.word_machine.specs.Machine.{arm_of};

use language::format::{NEXT, TERM_FUNCTOR};
use records::word_in;

// The record of the arm for a functor, in the chain of arms at record start; 0 where there is none.
pub fn arm_of(file: &[u8], start: usize, functor: u32) -> usize
    requires formed { Formed file.now }
    requires start_bound { start < record_count file.now }
    ensures value { result ≡ arm_of file.now functor (chain_records file.now start) }
    ensures upper_bound { result < record_count file.now }
{
    let mut at = start;
    while at != 0 {
        if word_in(file, at, TERM_FUNCTOR) == (functor as usize) {
            return at;
        }
        at = word_in(file, at, NEXT);
    }
    0
}
