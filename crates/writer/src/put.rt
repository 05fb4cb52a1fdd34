// Words and records in a lent slice of bytes.
ghost use Rattle.std.specs.Prelude.{◌≡◌, [], ◌∷◌, ◌+◌, ◌*◌, ◌/◌, ◌%◌, ◌≤◌, ◌<◌, length};
ghost use Rattle.language.specs.Format.{record_bytes};
ghost use Rattle.records.specs.Sizes.{byte_end, word_end, record_words};
ghost use Rattle.writer.specs.Laid.{PutWord, Laid, SmallWords, linked, with_next};

use language::format::{KIND, NEXT, RECORD_BYTES};
use records::sizes::BYTE_END;
use records::word;

fn low(x: usize) -> u8
    ensures { result ≡ x % byte_end }
{
    (x % BYTE_END) as u8
}

fn high(x: usize) -> u8
    requires { x < word_end }
    ensures { result ≡ x / byte_end }
{
    (x / BYTE_END) as u8
}

// Writes word k of record i, low byte first.
pub fn put_word(out: &mut [u8], i: usize, k: usize, x: usize)
    requires record_bytes_in_bounds { record_bytes * i + record_bytes ≤ length out.old }
    requires k_lt_record_words { k < record_words }
    requires x_lt_word_end { x < word_end }
    ensures { PutWord out.old out.new i k x }
{
    let at = RECORD_BYTES * i + 2 * k;
    out[at] = low(x);
    out[at + 1] = high(x);
}

// Writes record i, its eight words.
pub fn put_record(
    out: &mut [u8],
    i: usize,
    w0: usize,
    w1: usize,
    w2: usize,
    w3: usize,
    w4: usize,
    w5: usize,
    w6: usize,
    w7: usize,
)
    requires record_bytes_in_bounds { record_bytes * i + record_bytes ≤ length out.old }
    requires small_words { SmallWords (w0 ∷ w1 ∷ w2 ∷ w3 ∷ w4 ∷ w5 ∷ w6 ∷ w7 ∷ []) }
    ensures { Laid out.old out.new i ((w0 ∷ w1 ∷ w2 ∷ w3 ∷ w4 ∷ w5 ∷ w6 ∷ w7 ∷ []) ∷ []) }
{
    put_word(out, i, KIND, w0);
    put_word(out, i, NEXT, w1);
    put_word(out, i, 2, w2);
    put_word(out, i, 3, w3);
    put_word(out, i, 4, w4);
    put_word(out, i, 5, w5);
    put_word(out, i, 6, w6);
    put_word(out, i, 7, w7);
}

// A reference to the chain that starts at record w, where it is written from record c on.
pub fn link(w: usize, c: usize) -> usize
    ensures { result ≡ linked w c }
{
    if w == 0 { 0 } else { c }
}

// Writes record i of the file as record at, but for the next of its chain, which is given. Its kind is one more word to write.
pub fn copy_record(file: &[u8], out: &mut [u8], i: usize, at: usize, next: usize)
    requires record_bytes_in_bounds { record_bytes * at + record_bytes ≤ length out.old }
    requires next_lt_word_end { next < word_end }
    ensures { Laid out.old out.new at (with_next file.now i next ∷ []) }
{
    let kind = word(file, i, KIND);
    let w2 = word(file, i, 2);
    let w3 = word(file, i, 3);
    let w4 = word(file, i, 4);
    let w5 = word(file, i, 5);
    let w6 = word(file, i, 6);
    let w7 = word(file, i, 7);
    put_record(out, at, kind, next, w2, w3, w4, w5, w6, w7);
}
