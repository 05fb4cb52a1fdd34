// What a procedure declares: its variables and its regions.
ghost use Rattle.std.specs.Prelude.{◌≡◌};
ghost use Rattle.language.specs.File.{procedures, variables, regions};
ghost use Rattle.language.specs.Answers.{program};
ghost use Rattle.chains.specs.Formed.{Formed, Stands};
ghost use Rattle.declarations.specs.Declares.{Declares};
ghost use Rattle.declarations.specs.Own.{Own, declared, signature_at, few_declared};
ghost use Rattle.declarations.specs.Signatures.{each_declared, VariableTested, VariablesTested, RegionTested, RegionsTested};

use crate::edges::edges_ok;
use crate::names::{functor, is_region_of, region, regioned, variable};
use crate::places::{FILE_PLACES, OWN_PLACES};
use chains::{chain_length, word};
use language::format::{
    CLASS_DEAD, MAX_REGIONS, MAX_VARIABLES, MODE_OUT, NEXT, PROCEDURE_REGIONS, PROCEDURE_VARIABLES,
    REGION_CLASS, REGION_EDGES, REGION_TYPE, VARIABLE_MODE, VARIABLE_REGION, VARIABLE_TYPE,
};

// The variable of record i.
fn variable_ok(file: &[u8], table: &[u16; FILE_PLACES], own: &[u16; OWN_PLACES], i: usize) -> bool
    requires declares { Declares file.now table.now × Own file.now own.now }
    requires stands { Stands file.now variables i }
    ensures { VariableTested file.now own.now i result }
{
    if MODE_OUT < word(file, i, VARIABLE_MODE) {
        return false;
    }
    let t = word(file, i, VARIABLE_TYPE);
    let region = word(file, i, VARIABLE_REGION);
    if t == 0 {
        return region == 0;
    }
    if regioned(table, t) != 0 {
        return is_region_of(file, own, t, region);
    }
    if functor(table, t, 0) == 0 {
        return false;
    }
    region == 0
}

fn variables_ok(
    file: &[u8],
    table: &[u16; FILE_PLACES],
    own: &[u16; OWN_PLACES],
    start: usize,
) -> bool
    requires declares { Declares file.now table.now × Own file.now own.now }
    requires stands { Stands file.now variables start }
    ensures { VariablesTested file.now own.now start result }
{
    let mut i = start;
    while i != 0 {
        if !variable_ok(file, table, own, i) {
            return false;
        }
        i = word(file, i, NEXT);
    }
    true
}

// The region of record i.
fn region_ok(file: &[u8], table: &[u16; FILE_PLACES], own: &[u16; OWN_PLACES], i: usize) -> bool
    requires declares { Declares file.now table.now × Own file.now own.now }
    requires stands { Stands file.now regions i × (i ≡ 0 → ⊥) }
    ensures { RegionTested file.now own.now i result }
{
    let start = regioned(table, word(file, i, REGION_TYPE));
    if start == 0 {
        return false;
    }
    if CLASS_DEAD < word(file, i, REGION_CLASS) {
        return false;
    }
    edges_ok(file, table, own, start, word(file, i, REGION_EDGES))
}

fn regions_ok(
    file: &[u8],
    table: &[u16; FILE_PLACES],
    own: &[u16; OWN_PLACES],
    start: usize,
) -> bool
    requires declares { Declares file.now table.now × Own file.now own.now }
    requires stands { Stands file.now regions start }
    ensures { RegionsTested file.now own.now start result }
{
    let mut i = start;
    while i != 0 {
        if !region_ok(file, table, own, i) {
            return false;
        }
        i = word(file, i, NEXT);
    }
    true
}

// Whether the procedure of record i has no more variables and no more regions than may be.
pub fn counts_ok(file: &[u8], i: usize) -> bool
    requires formed { Formed file.now }
    requires stands { Stands file.now procedures i × (i ≡ 0 → ⊥) }
    ensures { result ≡ few_declared (signature_at file.now i) }
{
    if MAX_VARIABLES < chain_length(file, word(file, i, PROCEDURE_VARIABLES)) {
        return false;
    }
    chain_length(file, word(file, i, PROCEDURE_REGIONS)) <= MAX_REGIONS
}

// All that the procedure at hand declares.
pub fn signature_ok(file: &[u8], table: &[u16; FILE_PLACES], own: &[u16; OWN_PLACES]) -> bool
    requires { Declares file.now table.now × Own file.now own.now }
    ensures { result ≡ each_declared (program file.now).types (declared file.now own.now) }
{
    if !variables_ok(file, table, own, variable(own, 1)) {
        return false;
    }
    regions_ok(file, table, own, region(own, 1))
}
