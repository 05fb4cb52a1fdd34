// The records of a chain, counted.
ghost use Rattle.std.specs.Prelude.{◌≡◌, ◌<◌, length};
ghost use Rattle.language.specs.File.{record_count};
ghost use Rattle.chains.specs.Formed.{Formed};
ghost use Rattle.chains.specs.Records.{chain_records};

use crate::words::word;
use language::format::NEXT;

// How many records the chain at record i has.
pub fn chain_length(file: &[u8], i: usize) -> usize
    requires formed { Formed file.now }
    requires i_bound { i < record_count file.now }
    ensures { result ≡ length (chain_records file.now i) }
{
    let mut at = i;
    let mut count = 0;
    while at != 0 {
        count += 1;
        at = word(file, at, NEXT);
    }
    count
}
