// The walk over goals: a chain of goals, a goal, the two parts of an if, the three of a try, a switch with its arms.
ghost use Rattle.std.specs.Prelude.{◌≡◌, ◌<◌};
ghost use Rattle.language.specs.File.{functors, goals, arms, record_count};
ghost use Rattle.chains.specs.Formed.{Stands};
ghost use Rattle.chains.specs.Shapes.{IsSwitch, IsIf, IsTry};
ghost use Rattle.declarations.specs.Declares.{Declares};
ghost use Rattle.declarations.specs.Own.{Own};
ghost use Rattle.typing.specs.Settings.{GoalsTested, GoalTested, ArmsTested};

use crate::constructs::arm_fits;
use crate::steps::{is_number, step_ok};
use chains::word;
use declarations::{FILE_PLACES, OWN_PLACES, functor, variable};
use language::Goal;
use language::format::{
    ARM_GOALS, GOAL_X, IF_ELSE, IF_THEN, IF_Y, IF_Z, NEXT, SWITCH_ARMS, TRY_CONDITION, TRY_ELSE,
    TRY_THEN, VARIABLE_TYPE,
};

// The goals from record start on.
#[cycle(arms_attempt_branches_goal_goals_switch)]
pub fn goals(file: &[u8], table: &[u16; FILE_PLACES], own: &[u16; OWN_PLACES], start: usize) -> bool
    requires declares { Declares file.now table.now × Own file.now own.now }
    requires stands { Stands file.now goals start }
    ensures { GoalsTested file.now own.now start result }
{
    let mut i = start;
    while i != 0 {
        if !goal(file, table, own, i) {
            return false;
        }
        i = word(file, i, NEXT);
    }
    true
}

// The goal of record i.
#[cycle(arms_attempt_branches_goal_goals_switch)]
fn goal(file: &[u8], table: &[u16; FILE_PLACES], own: &[u16; OWN_PLACES], i: usize) -> bool
    requires declares { Declares file.now table.now × Own file.now own.now }
    requires stands { Stands file.now goals i × (i ≡ 0 → ⊥) }
    ensures { GoalTested file.now own.now i result }
{
    match chains::goal(file, i) {
        Goal::Switch => switch(file, table, own, i),
        Goal::If => branches(file, table, own, i),
        Goal::Try => attempt(file, table, own, i),
        _ => step_ok(file, table, own, i),
    }
}

// The if of record i.
#[cycle(arms_attempt_branches_goal_goals_switch)]
fn branches(file: &[u8], table: &[u16; FILE_PLACES], own: &[u16; OWN_PLACES], i: usize) -> bool
    requires declares { Declares file.now table.now × Own file.now own.now }
    requires fact { IsIf file.now i × (i < record_count file.now) }
    ensures { GoalTested file.now own.now i result }
{
    if !is_number(file, own, i, IF_Y) {
        return false;
    }
    if !is_number(file, own, i, IF_Z) {
        return false;
    }
    if !goals(file, table, own, word(file, i, IF_THEN)) {
        return false;
    }
    let second = word(file, i, IF_ELSE);
    if second == 0 {
        return true;
    }
    goals(file, table, own, second)
}

// The try of record i.
#[cycle(arms_attempt_branches_goal_goals_switch)]
fn attempt(file: &[u8], table: &[u16; FILE_PLACES], own: &[u16; OWN_PLACES], i: usize) -> bool
    requires declares { Declares file.now table.now × Own file.now own.now }
    requires fact { IsTry file.now i × (i < record_count file.now) }
    ensures { GoalTested file.now own.now i result }
{
    if !goals(file, table, own, word(file, i, TRY_CONDITION)) {
        return false;
    }
    let first = word(file, i, TRY_THEN);
    if first != 0 {
        if !goals(file, table, own, first) {
            return false;
        }
    }
    let otherwise = word(file, i, TRY_ELSE);
    if otherwise == 0 {
        return true;
    }
    goals(file, table, own, otherwise)
}

// The switch of record i.
#[cycle(arms_attempt_branches_goal_goals_switch)]
fn switch(file: &[u8], table: &[u16; FILE_PLACES], own: &[u16; OWN_PLACES], i: usize) -> bool
    requires declares { Declares file.now table.now × Own file.now own.now }
    requires switch { IsSwitch file.now i × (i < record_count file.now) }
    ensures { GoalTested file.now own.now i result }
{
    let v = variable(own, word(file, i, GOAL_X));
    if v == 0 {
        return false;
    }
    let t = word(file, v, VARIABLE_TYPE);
    if t == 0 {
        return false;
    }
    arms(
        file,
        table,
        own,
        word(file, i, SWITCH_ARMS),
        functor(table, t, 0),
    )
}

// The arms from record first on against the functors from record start on. An arm without goals takes no call.
#[cycle(arms_attempt_branches_goal_goals_switch)]
fn arms(
    file: &[u8],
    table: &[u16; FILE_PLACES],
    own: &[u16; OWN_PLACES],
    first: usize,
    start: usize,
) -> bool
    requires declares { Declares file.now table.now × Own file.now own.now }
    requires stands { Stands file.now arms first × Stands file.now functors start }
    ensures { ArmsTested file.now own.now first start result }
{
    let mut i = first;
    let mut g = start;
    let mut n = 0;
    while i != 0 {
        if !arm_fits(file, own, g, n, i) {
            return false;
        }
        let inner = word(file, i, ARM_GOALS);
        if inner != 0 {
            if !goals(file, table, own, inner) {
                return false;
            }
        }
        n += 1;
        g = word(file, g, NEXT);
        i = word(file, i, NEXT);
    }
    g == 0
}
