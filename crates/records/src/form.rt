// Number 2: a pass over the records, each by its unused words and its references, and a look at the counts.
ghost use Rattle.std.specs.Prelude.{◌≡◌, true, ℕ, ◌+◌, ◌-◌, ◌*◌, ◌≤◌, ◌<◌, min, eqb, length, get_or};
ghost use Rattle.language.specs.Lists.{all, up_from};
ghost use Rattle.language.specs.Format.{max_records, record_bytes};
ghost use Rattle.language.specs.File.{word, Kind, Chain, Use, first, kind_of, reference_ok, record_ok, references, references_of, form_ok};
ghost use Rattle.records.specs.Lists.{counted};
ghost use Rattle.records.specs.Table.{table_of, digit, packed, low_most, high_most};
ghost use Rattle.records.specs.Spare.{LowWords, HighWords};
ghost use Rattle.records.specs.Form.{Tallied, UseTallied, refers_ok, spare_ok};
ghost use Rattle.records.specs.Sizes.{record_words};

use crate::sizes::{DIGIT_END, KINDS_END, RECORD_WORDS, WORD_END};
use crate::words::word_in;
use language::format::{KIND, MAX_RECORDS};

// The record table, a row for each kind's number. Hex digit k, from the right, is the chain that word k leads to: 0 none at all, 1 nowhere,
// 2 types, 3 functors, 4 procedures, 5 variables, 6 regions, 7 edges, 8 goals, 9 arms, a arguments. Digit 0 is the chain that the kind stands in.
static ROWS: [usize; KINDS_END] = [
    0x11, // no kind
    0x241, // header
    0x322, // type
    0x33, // functor
    0x86544, // procedure
    0x55, // variable
    0x70066, // region
    0x77, // edge
    0x88, // literal
    0x88, // sum
    0x88, // assign
    0x88, // construct
    0x9088, // switch
    0x899, // arm
    0x880088, // if
    0xa088, // call
    0xaa, // argument
    0x88, // print
    0x88, // create
    0x88, // remove
    0x88888, // try
    0x88, // test
];

// The most that w2 and w3 may be as one number, w2 lowest: the words that a kind does not use are its last ones, and are 0.
static LOW: [usize; KINDS_END] = [
    0, // no kind
    0xffffffff, // header
    0xffff, // type
    0xffffffff, // functor
    0xffffffff, // procedure
    0xffffffff, // variable
    0xffffffff, // region
    0xffffffff, // edge
    0xffffffff, // literal
    0xffffffff, // sum
    0xffffffff, // assign
    0xffffffff, // construct
    0xffffffff, // switch
    0xffffffff, // arm
    0xffffffff, // if
    0xffffffff, // call
    0xffff, // argument
    0xffff, // print
    0xffff, // create
    0xffff, // remove
    0xffffffff, // try
    0xffffffff, // test
];

// The same of w4 to w7.
static HIGH: [usize; KINDS_END] = [
    0, // no kind
    0, // header
    0, // type
    0xffffffffffff, // functor
    0xffff, // procedure
    0xffff, // variable
    0xffff, // region
    0xffff, // edge
    0, // literal
    0xffffffff, // sum
    0, // assign
    0xffffffffffffffff, // construct
    0, // switch
    0xffffffffffffffff, // arm
    0xffffffff, // if
    0, // call
    0, // argument
    0, // print
    0, // create
    0, // remove
    0xffff, // try
    0, // test
];

fn row_of(table: &[usize; KINDS_END], kind: usize) -> usize
    ensures { (f : Kind → ℕ) → table.now ≡ table_of f → result ≡ f (kind_of kind) }
{
    if kind < KINDS_END {
        table[kind]
    } else {
        table[0]
    }
}

fn packed(kind: usize) -> usize
    ensures { result ≡ packed (kind_of kind) }
{
    row_of(&ROWS, kind)
}

fn low_most(kind: usize) -> usize
    ensures { result ≡ low_most (kind_of kind) }
{
    row_of(&LOW, kind)
}

fn high_most(kind: usize) -> usize
    ensures { result ≡ high_most (kind_of kind) }
{
    row_of(&HIGH, kind)
}

// w2 and w3 of record i as one number.
fn low_words(file: &[u8], i: usize) -> usize
    requires { record_bytes * i + record_bytes ≤ length file.now }
    ensures { LowWords (word file.now i) result }
{
    let w2 = word_in(file, i, 2);
    let w3 = word_in(file, i, 3);
    w2 + WORD_END * w3
}

// w4 to w7 of record i as one number.
fn high_words(file: &[u8], i: usize) -> usize
    requires { record_bytes * i + record_bytes ≤ length file.now }
    ensures { HighWords (word file.now i) result }
{
    let w4 = word_in(file, i, 4);
    let w5 = word_in(file, i, 5);
    let w6 = word_in(file, i, 6);
    let w7 = word_in(file, i, 7);
    w4 + WORD_END * (w5 + WORD_END * (w6 + WORD_END * w7))
}

// Whether the words of record i that its kind does not use are 0.
fn spare_ok(file: &[u8], i: usize) -> bool
    requires { record_bytes * i + record_bytes ≤ length file.now }
    ensures { result ≡ spare_ok (word file.now) i }
{
    let kind = word_in(file, i, KIND);
    let first = low_words(file, i);
    let last = high_words(file, i);
    first <= low_most(kind) && last <= high_most(kind)
}

// Whether r, a reference of record i, ends its chain or goes up to a record that stands in such a chain.
fn reference_ok(file: &[u8], n: usize, i: usize, r: usize, chain: usize) -> bool
    requires { (i < n) × (record_bytes * n ≤ length file.now) }
    ensures { ((c : Chain) → chain ≡ digit (first c) → result ≡ reference_ok (word file.now) n i c r) × (result ≡ true → r < n) }
{
    if r == 0 {
        return true;
    }
    if r <= i {
        return false;
    }
    if n <= r {
        return false;
    }
    packed(word_in(file, r, KIND)) % DIGIT_END == chain
}

fn one_more(x: u8) -> u8
    ensures { result ≡ min 2 (x + 1) }
{
    if x < 2 { x + 1 } else { 2 }
}

// Counts a reference to record r, up to 2; none leads to record 0.
fn count(seen: &mut [u8], r: usize)
    requires { r < length seen.old }
    ensures { seen.new ≡ counted seen.old r }
{
    if r == 0 {
        return;
    }
    let x = seen[r];
    seen[r] = one_more(x);
}

// Whether word k of record i is a reference as it should be, or none where chain is 0. Counts what it refers to.
fn word_ok(file: &[u8], seen: &mut [u8], n: usize, i: usize, k: usize, chain: usize) -> bool
    requires { (k < record_words) × (i < n) × (n ≤ length seen.old) × (record_bytes * n ≤ length file.now) }
    ensures { (u : Use) → chain ≡ digit u → UseTallied (word file.now) n i k u result seen.old seen.new }
{
    if chain == 0 {
        return true;
    }
    let r = word_in(file, i, k);
    if !reference_ok(file, n, i, r, chain) {
        return false;
    }
    count(seen, r);
    true
}

// Whether the references of record i are in order. Counts what they refer to.
fn refers_ok(file: &[u8], seen: &mut [u8], n: usize, i: usize) -> bool
    requires { (i < n) × (n ≤ length seen.old) × (record_bytes * n ≤ length file.now) }
    ensures { Tallied result (refers_ok (word file.now) n i) (references (word file.now) n i) seen.old seen.new }
{
    let mut row = packed(word_in(file, i, KIND));
    for k in 1..RECORD_WORDS {
        row /= DIGIT_END;
        if row == 0 {
            return true;
        }
        if !word_ok(file, seen, n, i, k, row % DIGIT_END) {
            return false;
        }
    }
    true
}

// Whether record i is in order. Counts what it refers to.
fn record_ok(file: &[u8], seen: &mut [u8], n: usize, i: usize) -> bool
    requires { (i < n) × (n ≤ length seen.old) × (record_bytes * n ≤ length file.now) }
    ensures { Tallied result (record_ok (word file.now) n i) (references (word file.now) n i) seen.old seen.new }
{
    spare_ok(file, i) && refers_ok(file, seen, n, i)
}

// Whether every record is. Counts what they refer to.
fn records_ok(file: &[u8], seen: &mut [u8], n: usize) -> bool
    requires { (n ≤ length seen.old) × (record_bytes * n ≤ length file.now) }
    ensures { Tallied result (all (record_ok (word file.now) n) (up_from 0 n)) (references_of (word file.now) n (up_from 0 n)) seen.old seen.new }
{
    for i in 0..n {
        if !record_ok(file, seen, n, i) {
            return false;
        }
    }
    true
}

// Whether records 1 to n - 1 were counted once. It looks at all of them, so that many are looked at in one step.
fn all_once(seen: &[u8], n: usize) -> bool
    requires { n ≤ length seen.now }
    ensures { result ≡ all (λ j. eqb (get_or seen.now j 0) 1) (up_from 1 (n - 1)) }
{
    let mut once = true;
    for j in 1..n {
        once &= seen[j] == 1;
    }
    once
}

// Number 2, over the words of n records.
pub(crate) fn form_ok(file: &[u8], n: usize) -> bool
    requires { (n ≤ max_records) × (record_bytes * n ≤ length file.now) }
    ensures { result ≡ form_ok (word file.now) n }
{
    let mut seen = [0; MAX_RECORDS];
    if !records_ok(file, &mut seen, n) {
        return false;
    }
    all_once(&seen, n)
}
