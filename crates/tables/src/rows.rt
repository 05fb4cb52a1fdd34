// The row of a record: what its goal reads and gives, needs, bears and ends, and a mark. Before number 5 the mark says that the goal gives no
// variable twice, afterwards that its images of dead and born regions are unshared.
ghost use Rattle.std.specs.Prelude.{◌≡◌, ◌<◌};
ghost use Rattle.tables.specs.Rows.{access_in, reads_in, gives_in, needs_in, bears_in, ends_in, mark_in, row_set, put_access, put_effect, bit_of};
ghost use Rattle.language.specs.Format.{max_records};
ghost use Rattle.tables.specs.TablePlaces.{row_size};

use crate::{Access, BEARS, ENDS, Effect, GIVES, MARK, NEEDS, READS, ROW, ROWS};
use language::format::MAX_RECORDS;
use sets::Set;

// The set in word k of the row of record i.
fn row_set(rows: &[u64; ROWS], i: usize, k: usize) -> Set
    requires { k < row_size }
    ensures { result ≡ row_set rows.now i k }
{
    if i < MAX_RECORDS {
        return Set::loaded(rows[ROW * i + k]);
    }
    Set::EMPTY
}

pub fn reads_at(rows: &[u64; ROWS], i: usize) -> Set
    ensures { result ≡ reads_in rows.now i }
{
    row_set(rows, i, READS)
}

pub fn gives_at(rows: &[u64; ROWS], i: usize) -> Set
    ensures { result ≡ gives_in rows.now i }
{
    row_set(rows, i, GIVES)
}

pub fn needs_at(rows: &[u64; ROWS], i: usize) -> Set
    ensures { result ≡ needs_in rows.now i }
{
    row_set(rows, i, NEEDS)
}

pub fn bears_at(rows: &[u64; ROWS], i: usize) -> Set
    ensures { result ≡ bears_in rows.now i }
{
    row_set(rows, i, BEARS)
}

pub fn ends_at(rows: &[u64; ROWS], i: usize) -> Set
    ensures { result ≡ ends_in rows.now i }
{
    row_set(rows, i, ENDS)
}

pub fn marked(rows: &[u64; ROWS], i: usize) -> bool
    ensures { result ≡ mark_in rows.now i }
{
    if i < MAX_RECORDS {
        return rows[ROW * i + MARK] == 1;
    }
    false
}

// What the goal at record i reads and gives, and its mark.
pub fn access_at(rows: &[u64; ROWS], i: usize) -> Access
    ensures { result ≡ access_in rows.now i }
{
    let reads = reads_at(rows, i);
    let gives = gives_at(rows, i);
    Access {
        reads,
        gives,
        once: marked(rows, i),
    }
}

fn bit_of(b: bool) -> u64
    ensures { result ≡ bit_of b }
{
    if b { 1 } else { 0 }
}

// Stores what the goal at record i reads and gives.
pub fn put_access(rows: &mut [u64; ROWS], i: usize, a: Access)
    requires { i < max_records }
    ensures { rows.new ≡ put_access rows.old i a }
{
    let reads = a.reads;
    let gives = a.gives;
    rows[ROW * i] = reads.stored();
    rows[ROW * i + GIVES] = gives.stored();
    rows[ROW * i + MARK] = bit_of(a.once);
}

// Stores what the goal at record i does to regions.
pub fn put_effect(rows: &mut [u64; ROWS], i: usize, e: Effect)
    requires { i < max_records }
    ensures { rows.new ≡ put_effect rows.old i e }
{
    let needs = e.needs;
    let bears = e.bears;
    let ends = e.ends;
    rows[ROW * i + NEEDS] = needs.stored();
    rows[ROW * i + BEARS] = bears.stored();
    rows[ROW * i + ENDS] = ends.stored();
    rows[ROW * i + MARK] = bit_of(e.unshared);
}
