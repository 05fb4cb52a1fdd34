// Words of a file, and number 1.
ghost use Rattle.std.specs.Prelude.{◌≡◌, ◌+◌, ◌*◌, ◌≤◌, ◌<◌, length, get_or};
ghost use Rattle.language.specs.File.{word, header_ok};
ghost use Rattle.language.specs.Format.{record_bytes};
ghost use Rattle.records.specs.Sizes.{byte_end, record_words, word_end};

use crate::sizes::BYTE_END;
use language::format::{HEADER, HEADER_COUNT, KIND, MAX_BYTES, RECORD_BYTES};

// Word k of record i; what is past the end counts as 0.
pub fn word(file: &[u8], i: usize, k: usize) -> usize
    requires { k < record_words }
    ensures { (result ≡ word file.now i k) × (result < word_end) }
{
    if i < file.len() / RECORD_BYTES {
        return word_in(file, i, k);
    }
    last_word(file, i, k)
}

// The same of a record that the file has whole.
pub fn word_in(file: &[u8], i: usize, k: usize) -> usize
    requires { (k < record_words) × (record_bytes * i + record_bytes ≤ length file.now) }
    ensures { (result ≡ word file.now i k) × (result < word_end) }
{
    let at = RECORD_BYTES * i + 2 * k;
    let low = usize::from(file[at]);
    let high = usize::from(file[at + 1]);
    low + BYTE_END * high
}

// The same where the file ends in record i, or before it.
fn last_word(file: &[u8], i: usize, k: usize) -> usize
    requires { k < record_words }
    ensures { (result ≡ word file.now i k) × (result < word_end) }
{
    if i > file.len() / RECORD_BYTES {
        return 0;
    }
    let at = RECORD_BYTES * i + 2 * k;
    let low = byte(file, at);
    let high = byte(file, at + 1);
    low + BYTE_END * high
}

// The byte at a place; 0 past the end.
fn byte(file: &[u8], at: usize) -> usize
    ensures { (result ≡ get_or file.now at 0) × (result < byte_end) }
{
    if at < file.len() {
        usize::from(file[at])
    } else {
        0
    }
}

// Number 1.
pub fn header_ok(file: &[u8]) -> bool
    ensures { result ≡ header_ok file.now }
{
    if file.len() < RECORD_BYTES {
        return false;
    }
    if file.len() > MAX_BYTES {
        return false;
    }
    if file.len() != RECORD_BYTES * word(file, 0, HEADER_COUNT) {
        return false;
    }
    word(file, 0, KIND) == HEADER
}
