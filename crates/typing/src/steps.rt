// The goals without parts.
ghost use Rattle.std.specs.Prelude.{◌≡◌, ◌⊎◌, ◌<◌};
ghost use Rattle.language.specs.File.{word, goals, record_count};
ghost use Rattle.records.specs.Sizes.{record_words};
ghost use Rattle.chains.specs.Formed.{Formed, Stands};
ghost use Rattle.chains.specs.Shapes.{IsSum, IsAssign, IsCreate, IsRemove, IsSwitch, IsIf, IsTry, IsTest};
ghost use Rattle.declarations.specs.Declares.{Declares};
ghost use Rattle.declarations.specs.Own.{Own};
ghost use Rattle.typing.specs.Settings.{NumberTested, GoalTested};

use crate::calls::call_ok;
use crate::constructs::construct_ok;
use chains::{goal, word};
use declarations::{FILE_PLACES, OWN_PLACES, has_type, region, variable};
use language::Goal;
use language::format::{
    ASSIGN_Y, GOAL_X, LIFETIME_REGION, PRINT_Y, SUM_OPERATION, SUM_Y, SUM_Z, TEST_Y, TEST_Z,
    VARIABLE_TYPE,
};

// Whether word k of record i is a variable of type 0.
pub fn is_number(file: &[u8], own: &[u16; OWN_PLACES], i: usize, k: usize) -> bool
    requires formed { Formed file.now × Own file.now own.now }
    requires k_lt_record_words { (k < record_words) × (i < record_count file.now) }
    ensures { NumberTested file.now own.now i k result }
{
    has_type(file, own, 0, word(file, i, k))
}

fn sum_ok(file: &[u8], own: &[u16; OWN_PLACES], i: usize) -> bool
    requires formed { Formed file.now × Own file.now own.now }
    requires sum { IsSum file.now i × (i < record_count file.now) }
    ensures { GoalTested file.now own.now i result }
{
    if !is_number(file, own, i, GOAL_X) {
        return false;
    }
    if 1 < word(file, i, SUM_OPERATION) {
        return false;
    }
    if !is_number(file, own, i, SUM_Y) {
        return false;
    }
    is_number(file, own, i, SUM_Z)
}

fn assign_ok(file: &[u8], own: &[u16; OWN_PLACES], i: usize) -> bool
    requires formed { Formed file.now × Own file.now own.now }
    requires assign { IsAssign file.now i × (i < record_count file.now) }
    ensures { GoalTested file.now own.now i result }
{
    let v = variable(own, word(file, i, GOAL_X));
    if v == 0 {
        return false;
    }
    let t = word(file, v, VARIABLE_TYPE);
    has_type(file, own, t, word(file, i, ASSIGN_Y))
}

// A create or a remove.
fn lifetime_ok(file: &[u8], own: &[u16; OWN_PLACES], i: usize) -> bool
    requires formed { Formed file.now × Own file.now own.now }
    requires create { (IsCreate file.now i ⊎ IsRemove file.now i) × (i < record_count file.now) }
    ensures { GoalTested file.now own.now i result }
{
    0 < region(own, word(file, i, LIFETIME_REGION))
}

fn test_ok(file: &[u8], own: &[u16; OWN_PLACES], i: usize) -> bool
    requires formed { Formed file.now × Own file.now own.now }
    requires test { IsTest file.now i × (i < record_count file.now) }
    ensures { GoalTested file.now own.now i result }
{
    if !is_number(file, own, i, TEST_Y) {
        return false;
    }
    is_number(file, own, i, TEST_Z)
}

// The step of record i, by its kind.
pub fn step_ok(file: &[u8], table: &[u16; FILE_PLACES], own: &[u16; OWN_PLACES], i: usize) -> bool
    requires declares { Declares file.now table.now × Own file.now own.now }
    requires stands { Stands file.now goals i × (i ≡ 0 → ⊥) }
    requires fact { (IsSwitch file.now i → ⊥) × (IsIf file.now i → ⊥) × (IsTry file.now i → ⊥) }
    ensures { GoalTested file.now own.now i result }
{
    match goal(file, i) {
        Goal::Literal => is_number(file, own, i, GOAL_X),
        Goal::Sum => sum_ok(file, own, i),
        Goal::Assign => assign_ok(file, own, i),
        Goal::Construct => construct_ok(file, table, own, i),
        Goal::Call => call_ok(file, table, own, i),
        Goal::Print => is_number(file, own, i, PRINT_Y),
        Goal::Create | Goal::Remove => lifetime_ok(file, own, i),
        Goal::Test => test_ok(file, own, i),
        Goal::Switch | Goal::If | Goal::Try => false,
    }
}
