// The region of each construct's X, and the place before each call's images.
ghost use Rattle.std.specs.Prelude.{◌≡◌, ◌-◌, ◌<◌};
ghost use Rattle.language.specs.File.{record_count};
ghost use Rattle.regions.specs.Here.{Given};
ghost use Rattle.plans.specs.Passes.{TypedAndFilled, image_count, side_at, siding};

use crate::{PLAN, SIDES};
use language::format;
use records::word;
use regions::owner_of;
use tables::{REGIONS, home, start_of, word_at};

// How many images record i has: a call has one for each region of its callee.
pub fn image_count(file: &[u8], table: &[u64], i: usize) -> usize
    requires typed_and_filled { TypedAndFilled file.now table.now }
    requires i_nonzero { (0 < i) × (i < record_count file.now) }
    ensures { result ≡ image_count file.now i }
{
    if word(file, i, format::KIND) == format::CALL {
        let start = start_of(table, word(file, i, format::CALL_PROCEDURE));
        return word_at(&table[start..], REGIONS);
    }
    0
}

// The side of record i, which has its images, if it is a call, behind place `at`.
fn side_of(file: &[u8], table: &[u64], owners: &[u16], i: usize, at: usize) -> usize
    requires given { Given file.now table.now owners.now }
    requires i_nonzero { (0 < i) × (i < record_count file.now) }
    ensures { result ≡ side_at file.now at i }
{
    let kind = word(file, i, format::KIND);
    if kind == format::CALL {
        return at;
    }
    if kind == format::CONSTRUCT {
        let start = start_of(table, owner_of(owners, i));
        return home(&table[start..], word(file, i, format::GOAL_X));
    }
    0
}

// The sides of all records.
pub fn fill_sides(file: &[u8], table: &[u64], owners: &[u16], plan: &mut [usize; PLAN])
    requires { Given file.now table.now owners.now }
    ensures { plan.new ≡ siding file.now (record_count file.now - 1) 1 plan.old }
{
    let n = word(file, 0, format::HEADER_COUNT);
    let mut at = 0;
    for i in 1..n {
        plan[SIDES + i] = side_of(file, table, owners, i, at);
        at += image_count(file, table, i);
    }
}
