// The annotated file: how many records it has, and its bytes.
ghost use Rattle.std.specs.Prelude.{◌≡◌, ℕ, ◌*◌, ◌≤◌, ◌<◌, length, get_or, take};
ghost use Rattle.language.specs.Format.{record_bytes, max_records, max_bytes};
ghost use Rattle.language.specs.Lists.{front_written};
ghost use Rattle.language.specs.Layout.{size, lay};
ghost use Rattle.language.specs.Records.{program_tree};
ghost use Rattle.language.specs.Annotation.{annotate};
ghost use Rattle.language.specs.Answers.{program, file_of};
ghost use Rattle.records.specs.Sizes.{byte_end};
ghost use Rattle.liveness.specs.Points.{point_words};
ghost use Rattle.laying.specs.Lays.{Lays};
ghost use Rattle.insertion.specs.Procedures.{Unrefused};
ghost use Rattle.insertion.specs.Whole.{HeaderStored};

use crate::procedures::lay_procedures;
use language::format::{HEADER, HEADER_TYPES, MAX_BYTES};
use laying::{lay_chain, refer, span, store};
use liveness::POINTS;
use records::word;
use tables::{ROWS, TABLE};

// Stores the header: the types were laid from 1 to procedures, the procedures from there to end.
fn store_header(out: &mut [u8; MAX_BYTES], procedures: usize, end: usize)
    ensures { HeaderStored out.old out.new procedures end }
{
    let w1 = span(procedures, end);
    let w2 = span(1, procedures);
    let count = refer(1, end);
    store(out, 0, HEADER, w1, w2, count, 0, 0, 0, 0);
}

// Lays the whole file, as far as the memory has room for it.
fn lay_file(
    file: &[u8],
    table: &[u64; TABLE],
    rows: &[u64; ROWS],
    points: &mut [u64; POINTS],
    out: &mut [u8; MAX_BYTES],
) -> usize
    requires unrefused { Unrefused file.now table.now rows.now }
    requires points_len { length points.old ≡ point_words }
    ensures points_len_2 { length points.new ≡ point_words }
    ensures lays { Lays out.old out.new 0 result (lay (program_tree (annotate (program file.now))) 0) }
{
    let types = word(file, 0, HEADER_TYPES);
    let procedures = lay_chain(file, out, types, 1);
    let end = lay_procedures(file, table, rows, points, out, procedures);
    store_header(out, procedures, end);
    end
}

fn lent(memory: &[u8]) {}

// What stands in memory are bytes: that is known of a slice that is lent on, and not of an array.
fn are_bytes(memory: &[u8])
    ensures { (j : ℕ) → get_or memory.now j 0 < byte_end }
{
    lent(memory);
}

// Memory for the longest annotated file.
pub fn blank_laid() -> [u8; MAX_BYTES]
    ensures { max_bytes ≡ length result }
{
    [0; MAX_BYTES]
}

// Lays the annotated file as the front part of `laid` and answers how many records it has; some number above 4,096 where it has more than that.
pub fn lay_annotated(
    file: &[u8],
    table: &[u64; TABLE],
    rows: &[u64; ROWS],
    points: &mut [u64; POINTS],
    laid: &mut [u8; MAX_BYTES],
) -> usize
    requires unrefused { Unrefused file.now table.now rows.now }
    requires points_len { length points.old ≡ point_words }
    requires max_bytes_value { max_bytes ≡ length laid.old }
    ensures points_len_2 { length points.new ≡ point_words }
    ensures max_bytes_value_2 { max_bytes ≡ length laid.new }
    ensures value { size (program_tree (annotate (program file.now))) ≤ max_records → result ≡ size (program_tree (annotate (program file.now))) }
    ensures lower_bound { max_records < size (program_tree (annotate (program file.now))) → max_records < result }
    ensures laid_after { result ≤ max_records → take (record_bytes * result) laid.new ≡ file_of (annotate (program file.now)) }
{
    let records = lay_file(file, table, rows, points, laid);
    are_bytes(laid);
    records
}

// Copies that many bytes of what was laid to the front part of the slice, which has room for them. Bytes behind them stay as they are.
pub fn write(laid: &[u8; MAX_BYTES], bytes: usize, out: &mut [u8])
    requires bytes_le_max_bytes { bytes ≤ max_bytes }
    requires max_bytes_value { max_bytes ≡ length laid.now }
    requires bytes_in_bounds { bytes ≤ length out.old }
    ensures { out.new ≡ front_written (take bytes laid.now) out.old }
{
    out[..bytes].copy_from_slice(&laid[..bytes]);
}
