// The walk in written order: a chain's records one after the other, each followed by what its words lead to. The records still ahead fall.
ghost use Rattle.std.specs.Prelude.{◌≡◌, true, false, ℕ, ◌≤◌, ◌<◌, length};
ghost use Rattle.language.specs.Layout.{lay};
ghost use Rattle.records.specs.Sizes.{record_words};
ghost use Rattle.writer.specs.Ready.{ChainReady, RecordReady, Wrote, tree_at, front_to};
ghost use Rattle.writer.specs.Leads.{leads_at};

use crate::put::{copy_record, link, put_word};
use chains::word;
use language::format::{
    ARM, ARM_GOALS, CALL, CALL_ARGUMENTS, HEADER, HEADER_TYPES, IF, IF_ELSE, IF_THEN, KIND, NEXT,
    PROCEDURE, PROCEDURE_GOALS, REGION, REGION_EDGES, SWITCH, SWITCH_ARMS, TRY, TRY_ELSE, TYPE,
    TYPE_FUNCTORS,
};
use records::sizes::RECORD_WORDS;

// Whether word k, from 2 to 7, of a record of that kind leads to a chain.
pub fn leads(kind: usize, k: usize) -> bool
    requires le_k { 2 ≤ k }
    requires k_lt_record_words { k < record_words }
    ensures { result ≡ leads_at kind k }
{
    match kind {
        HEADER => k == HEADER_TYPES,
        TYPE => k == TYPE_FUNCTORS,
        PROCEDURE => k <= PROCEDURE_GOALS,
        REGION => k == REGION_EDGES,
        SWITCH => k == SWITCH_ARMS,
        ARM => k == ARM_GOALS,
        IF => k == IF_THEN || k == IF_ELSE,
        CALL => k == CALL_ARGUMENTS,
        TRY => k <= TRY_ELSE,
        _ => false,
    }
}

// Whether a record of that kind leads to no chain but its own.
fn is_leaf(kind: usize) -> bool
    ensures { result ≡ true → (k : ℕ) → 2 ≤ k → k < record_words → leads_at kind k ≡ false }
{
    match kind {
        HEADER => false,
        TYPE => false,
        PROCEDURE => false,
        REGION => false,
        SWITCH => false,
        ARM => false,
        IF => false,
        CALL => false,
        TRY => false,
        _ => true,
    }
}

// Writes the chain that starts at record start, from record first on. Returns the place behind it.
#[cycle(write_chain_write_record)]
pub fn write_chain(file: &[u8], out: &mut [u8], start: usize, first: usize) -> usize
    requires { ChainReady file.now start first (length out.old) }
    ensures { Wrote out.old out.new first result (lay (tree_at file.now start) first) }
{
    let mut i = start;
    let mut at = first;
    while i != 0 {
        let next = word(file, i, NEXT);
        at = write_record(file, out, i, next, at);
        i = next;
    }
    at
}

// Writes record i as record at, and behind it what its words lead to. Returns the place behind that, where the rest of its chain goes if `on` is
// not 0.
#[cycle(write_chain_write_record)]
pub fn write_record(file: &[u8], out: &mut [u8], i: usize, on: usize, at: usize) -> usize
    requires { RecordReady file.now i at (length out.old) }
    ensures { Wrote out.old out.new at result (front_to file.now i on at) }
{
    let kind = word(file, i, KIND);
    let mut end = at + 1;
    if is_leaf(kind) {
        copy_record(file, out, i, at, link(on, end));
        return end;
    }
    for k in 2..RECORD_WORDS {
        let w = word(file, i, k);
        if leads(kind, k) {
            put_word(out, at, k, link(w, end));
            end = write_chain(file, out, w, end);
        } else {
            put_word(out, at, k, w);
        }
    }
    let next = link(on, end);
    put_word(out, at, KIND, kind);
    put_word(out, at, NEXT, next);
    end
}
