// The walk over goals: what is held and sound after them, from what is held and sound before; nothing where a rule is broken.
ghost use Rattle.std.specs.Prelude.{◌≡◌};
ghost use Rattle.language.specs.File;
ghost use Rattle.chains.specs.Formed.{Formed, Stands};
ghost use Rattle.chains.specs.Shapes.{IsSwitch, IsIf, IsTry};
ghost use Rattle.checking.specs.Ready.{GoalsAfter, GoalAfter, ArmsAfter};

use crate::carried::Carried;
use crate::step::{enter, step};
use chains::word;
use language::Goal;
use language::format::{
    ARM, ARM_GOALS, GOAL_X, IF_ELSE, IF_THEN, IF_Y, IF_Z, KIND, NEXT, SWITCH_ARMS, TRY_CONDITION,
    TRY_ELSE, TRY_THEN,
};
use tables::ROWS;
use walks::is_step;

// After the goals from record start on.
#[cycle(arms_attempt_branches_goal_goals_switch)]
pub fn goals(
    file: &[u8],
    rows: &[u64; ROWS],
    own: &[u64],
    before: Carried,
    start: usize,
) -> Option<Carried>
    requires formed { Formed file.now }
    requires stands { Stands file.now File.goals start }
    ensures { GoalsAfter file.now rows.now own.now start before result }
{
    let mut carried = before;
    let mut i = start;
    while i != 0 {
        carried = goal(file, rows, own, carried, i)?;
        i = word(file, i, NEXT);
    }
    Some(carried)
}

// After the goal at record i.
#[cycle(arms_attempt_branches_goal_goals_switch)]
fn goal(file: &[u8], rows: &[u64; ROWS], own: &[u64], before: Carried, i: usize) -> Option<Carried>
    requires formed { Formed file.now }
    requires stands { Stands file.now File.goals i × (i ≡ 0 → ⊥) }
    ensures { GoalAfter file.now rows.now own.now i before result }
{
    match chains::goal(file, i) {
        Goal::Switch => switch(file, rows, own, before, i),
        Goal::If => branches(file, rows, own, before, i),
        Goal::Try => attempt(file, rows, own, before, i),
        _ => {
            if !is_step(word(file, i, KIND)) {
                return None;
            }
            step(rows, own, before, i)
        }
    }
}

// After any of the arms of a switch.
#[cycle(arms_attempt_branches_goal_goals_switch)]
fn switch(
    file: &[u8],
    rows: &[u64; ROWS],
    own: &[u64],
    before: Carried,
    i: usize,
) -> Option<Carried>
    requires formed { Formed file.now }
    requires switch { IsSwitch file.now i }
    ensures { GoalAfter file.now rows.now own.now i before result }
{
    if !before.sound.has(word(file, i, GOAL_X)) {
        return None;
    }
    let first = word(file, i, SWITCH_ARMS);
    arms(file, rows, own, before, first)
}

// After either part of an if.
#[cycle(arms_attempt_branches_goal_goals_switch)]
fn branches(
    file: &[u8],
    rows: &[u64; ROWS],
    own: &[u64],
    before: Carried,
    i: usize,
) -> Option<Carried>
    requires formed { Formed file.now }
    requires fact { IsIf file.now i }
    ensures { GoalAfter file.now rows.now own.now i before result }
{
    if !before.sound.has(word(file, i, IF_Y)) {
        return None;
    }
    if !before.sound.has(word(file, i, IF_Z)) {
        return None;
    }
    let yes = word(file, i, IF_THEN);
    let one = goals(file, rows, own, before, yes)?;
    let no = word(file, i, IF_ELSE);
    if no == 0 {
        return one.join(before);
    }
    let other = goals(file, rows, own, before, no)?;
    one.join(other)
}

// After the condition and the then part of a try, or after its else part, which starts from what was carried before the try.
#[cycle(arms_attempt_branches_goal_goals_switch)]
fn attempt(
    file: &[u8],
    rows: &[u64; ROWS],
    own: &[u64],
    before: Carried,
    i: usize,
) -> Option<Carried>
    requires formed { Formed file.now }
    requires fact { IsTry file.now i }
    ensures { GoalAfter file.now rows.now own.now i before result }
{
    let condition = word(file, i, TRY_CONDITION);
    let holds = goals(file, rows, own, before, condition)?;
    let yes = word(file, i, TRY_THEN);
    let one = goals(file, rows, own, holds, yes)?;
    let otherwise = word(file, i, TRY_ELSE);
    if otherwise == 0 {
        return one.join(before);
    }
    let other = goals(file, rows, own, before, otherwise)?;
    one.join(other)
}

// After any of the arms from record i on.
#[cycle(arms_attempt_branches_goal_goals_switch)]
fn arms(file: &[u8], rows: &[u64; ROWS], own: &[u64], before: Carried, i: usize) -> Option<Carried>
    requires formed { Formed file.now }
    requires stands { Stands file.now File.arms i }
    ensures { ArmsAfter file.now rows.now own.now i before result }
{
    if i == 0 {
        return Some(before);
    }
    if word(file, i, KIND) != ARM {
        return None;
    }
    let entered = enter(rows, own, before, i);
    let inside = word(file, i, ARM_GOALS);
    let one = goals(file, rows, own, entered, inside)?;
    let next = word(file, i, NEXT);
    if next == 0 {
        return Some(one);
    }
    let other = arms(file, rows, own, before, next)?;
    one.join(other)
}
