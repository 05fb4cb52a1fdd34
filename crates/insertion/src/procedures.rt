// Procedures: their variables and regions as they are, their goals annotated.
ghost use Rattle.std.specs.Prelude.{◌≡◌, ◌<◌, length};
ghost use Rattle.language.specs.Layout.{lay};
ghost use Rattle.language.specs.Records.{goals_tree};
ghost use Rattle.language.specs.Answers.{program};
ghost use Rattle.chains.specs.Turns.{Turn};
ghost use Rattle.liveness.specs.Points.{point_words};
ghost use Rattle.laying.specs.Lays.{Lays};
ghost use Rattle.insertion.specs.Procedures.{Unrefused, placed_body, procedure_head, procedures_tree};

use crate::bodies::lay_body;
use language::format::{
    HEADER_PROCEDURES, MAX_BYTES, NEXT, PROCEDURE_REGIONS, PROCEDURE_VARIABLES,
};
use laying::{lay_chain, store_procedure};
use liveness::POINTS;
use records::word;
use tables::{ROWS, TABLE, start_of};
use writer::behind;

// Lays the goals of procedure q.
fn lay_goals(
    file: &[u8],
    table: &[u64],
    rows: &[u64; ROWS],
    points: &mut [u64; POINTS],
    out: &mut [u8; MAX_BYTES],
    q: usize,
    first: usize,
) -> usize
    requires unrefused { Unrefused file.now table.now rows.now }
    requires q_in_bounds { q < length (program file.now).procedures }
    requires points_len { length points.old ≡ point_words }
    ensures points_len_2 { length points.new ≡ point_words }
    ensures lays { Lays out.old out.new first result (lay (goals_tree (placed_body (program file.now) q)) first) }
{
    let start = start_of(table, q);
    lay_body(file, rows, &table[start..], points, out, first)
}

// Lays the procedure at record i, which is number q.
fn lay_procedure(
    file: &[u8],
    table: &[u64],
    rows: &[u64; ROWS],
    points: &mut [u64; POINTS],
    out: &mut [u8; MAX_BYTES],
    i: usize,
    q: usize,
    first: usize,
) -> usize
    requires unrefused { Unrefused file.now table.now rows.now }
    requires turn { Turn file.now i q × (i ≡ 0 → ⊥) }
    requires points_len { length points.old ≡ point_words }
    ensures points_len_2 { length points.new ≡ point_words }
    ensures lays { Lays out.old out.new first result (procedure_head file.now i q first) }
{
    let start = behind(first);
    let variables = word(file, i, PROCEDURE_VARIABLES);
    let regions = lay_chain(file, out, variables, start);
    let body = lay_chain(file, out, word(file, i, PROCEDURE_REGIONS), regions);
    let end = lay_goals(file, table, rows, points, out, q, body);
    store_procedure(file, out, i, first, start, regions, body, end);
    end
}

// Lays all procedures.
pub fn lay_procedures(
    file: &[u8],
    table: &[u64; TABLE],
    rows: &[u64; ROWS],
    points: &mut [u64; POINTS],
    out: &mut [u8; MAX_BYTES],
    first: usize,
) -> usize
    requires unrefused { Unrefused file.now table.now rows.now }
    requires points_len { length points.old ≡ point_words }
    ensures points_len_2 { length points.new ≡ point_words }
    ensures lays { Lays out.old out.new first result (lay (procedures_tree (program file.now) (program file.now).procedures) first) }
{
    let mut i = word(file, 0, HEADER_PROCEDURES);
    let mut q = 0;
    let mut record = first;
    while i != 0 {
        record = lay_procedure(file, table, rows, points, out, i, q, record);
        q += 1;
        i = word(file, i, NEXT);
    }
    record
}
