// References to places, and records that are stored only where the lent slice has room for them.
ghost use Rattle.std.specs.Prelude.{[], ◌∷◌};
ghost use Rattle.writer.specs.Laid.{SmallWords};
ghost use Rattle.laying.specs.Lays.{RefersTo, Spans, Stored};

use language::format::{MAX_RECORDS, RECORD_BYTES};
use writer::put_record;

// A word that refers to place c, or 0 where w is 0.
pub fn refer(w: usize, c: usize) -> usize
    ensures { RefersTo w c result }
{
    if w == 0 {
        return 0;
    }
    if c > MAX_RECORDS {
        return 0;
    }
    c
}

// A word that refers to the records from place c up to place end; 0 where there are none.
pub fn span(c: usize, end: usize) -> usize
    ensures { Spans c end result }
{
    if c == end {
        return 0;
    }
    if c > MAX_RECORDS {
        return 0;
    }
    c
}

// Stores record at, its eight words.
pub fn store(
    out: &mut [u8],
    at: usize,
    w0: usize,
    w1: usize,
    w2: usize,
    w3: usize,
    w4: usize,
    w5: usize,
    w6: usize,
    w7: usize,
)
    requires { SmallWords (w0 ∷ w1 ∷ w2 ∷ w3 ∷ w4 ∷ w5 ∷ w6 ∷ w7 ∷ []) }
    ensures { Stored out.old out.new at (w0 ∷ w1 ∷ w2 ∷ w3 ∷ w4 ∷ w5 ∷ w6 ∷ w7 ∷ []) }
{
    if at < out.len() / RECORD_BYTES {
        put_record(out, at, w0, w1, w2, w3, w4, w5, w6, w7);
    }
}
