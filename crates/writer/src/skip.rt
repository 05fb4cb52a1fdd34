// Where records would end if they were written, in written order. A place past 4,096 stays above 4,096, so no place overflows.
ghost use Rattle.std.specs.Prelude.{suc, ◌<◌};
ghost use Rattle.language.specs.File.{record_count};
ghost use Rattle.language.specs.Layout.{size, size_words};
ghost use Rattle.chains.specs.Formed.{Formed};
ghost use Rattle.writer.specs.Ready.{tree_at, words_at};
ghost use Rattle.writer.specs.Skips.{Behind};

use crate::walk::leads;
use chains::word;
use language::format::{KIND, MAX_RECORDS, NEXT};
use records::sizes::RECORD_WORDS;

// The place behind one record.
pub fn behind(at: usize) -> usize
    ensures { Behind at 1 result }
{
    if at > MAX_RECORDS {
        return at;
    }
    at + 1
}

// The place behind the chain that starts at record start, if it is written from place first on.
#[cycle(skip_chain_skip_record)]
pub fn skip_chain(file: &[u8], start: usize, first: usize) -> usize
    requires formed { Formed file.now }
    requires start_bound { start < record_count file.now }
    ensures { Behind first (size (tree_at file.now start)) result }
{
    let mut i = start;
    let mut at = first;
    while i != 0 {
        at = skip_record(file, i, at);
        i = word(file, i, NEXT);
    }
    at
}

// The place behind record i and what its words lead to.
#[cycle(skip_chain_skip_record)]
pub fn skip_record(file: &[u8], i: usize, first: usize) -> usize
    requires formed { Formed file.now }
    requires i_bound { i < record_count file.now }
    ensures { Behind first (suc (size_words (words_at file.now i))) result }
{
    let kind = word(file, i, KIND);
    let mut at = behind(first);
    for k in 2..RECORD_WORDS {
        if leads(kind, k) {
            at = skip_chain(file, word(file, i, k), at);
        }
    }
    at
}
