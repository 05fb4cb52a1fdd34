// Words of a file that passed numbers 1 and 2: a record that it has is read with no look at the file's length.
ghost use Rattle.std.specs.Prelude.{◌≡◌, ◌<◌};
ghost use Rattle.language.specs.File.{word, record_count};
ghost use Rattle.records.specs.Sizes.{record_words, word_end};
ghost use Rattle.chains.specs.Formed.{Formed};

use language::format::RECORD_BYTES;
use records::word_in;

// Word k of record i.
pub fn word(file: &[u8], i: usize, k: usize) -> usize
    requires formed { Formed file.now }
    requires k_lt_record_words { (k < record_words) × (i < record_count file.now) }
    ensures { (result ≡ word file.now i k) × (result < word_end) }
{
    word_in(file, i, k)
}

// How many records the file has, by its length: a loop up to there asks for no other test of a record's number.
pub fn record_count(file: &[u8]) -> usize
    requires { Formed file.now }
    ensures { result ≡ record_count file.now }
{
    file.len() / RECORD_BYTES
}
