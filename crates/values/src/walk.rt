// Number 4's walk over goals, from what has a value before them to what has one behind them; nothing where a fault is met.
ghost use Rattle.std.specs.Prelude.{◌≡◌};
ghost use Rattle.language.specs.File.{goals, arms, word};
ghost use Rattle.language.specs.Format.{kind_word, switch_kind, if_kind, try_kind};
ghost use Rattle.chains.specs.Formed.{Formed, Stands};
ghost use Rattle.accesses.specs.Noting.{AllNoted};
ghost use Rattle.values.specs.Carrying.{GoalsAfter, GoalAfter, ArmsAfter};

use crate::carried::Valuation;
use chains::word;
use language::Goal;
use language::format::{
    ARM, ARM_GOALS, GOAL_X, IF_ELSE, IF_THEN, IF_Y, IF_Z, KIND, NEXT, SWITCH_ARMS, TRY_CONDITION,
    TRY_ELSE, TRY_THEN,
};
use tables::ROWS;

// The goals from record start on.
#[cycle(arms_attempt_branches_goal_goals_switch)]
pub fn goals(file: &[u8], rows: &[u64; ROWS], before: Valuation, start: usize) -> Option<Valuation>
    requires formed { Formed file.now }
    requires all_noted { AllNoted file.now rows.now }
    requires stands { Stands file.now goals start }
    ensures { GoalsAfter file.now start before result }
{
    let mut carried = before;
    let mut i = start;
    while i != 0 {
        carried = goal(file, rows, carried, i)?;
        i = word(file, i, NEXT);
    }
    Some(carried)
}

// The goal at record i.
#[cycle(arms_attempt_branches_goal_goals_switch)]
fn goal(file: &[u8], rows: &[u64; ROWS], before: Valuation, i: usize) -> Option<Valuation>
    requires formed { Formed file.now }
    requires all_noted { AllNoted file.now rows.now }
    requires stands { Stands file.now goals i × (i ≡ 0 → ⊥) }
    ensures { GoalAfter file.now i before result }
{
    match chains::goal(file, i) {
        Goal::Switch => switch(file, rows, before, i),
        Goal::If => branches(file, rows, before, i),
        Goal::Try => attempt(file, rows, before, i),
        _ => before.after(rows, i),
    }
}

#[cycle(arms_attempt_branches_goal_goals_switch)]
fn switch(file: &[u8], rows: &[u64; ROWS], before: Valuation, i: usize) -> Option<Valuation>
    requires formed { Formed file.now }
    requires all_noted { AllNoted file.now rows.now }
    requires kind_word_value { word file.now i kind_word ≡ switch_kind }
    ensures { GoalAfter file.now i before result }
{
    if !before.every.has(word(file, i, GOAL_X)) {
        return None;
    }
    let first = word(file, i, SWITCH_ARMS);
    arms(file, rows, before, first)
}

// An if: its two parts, each from what is carried before it.
#[cycle(arms_attempt_branches_goal_goals_switch)]
fn branches(file: &[u8], rows: &[u64; ROWS], before: Valuation, i: usize) -> Option<Valuation>
    requires formed { Formed file.now }
    requires all_noted { AllNoted file.now rows.now }
    requires kind_word_value { word file.now i kind_word ≡ if_kind }
    ensures { GoalAfter file.now i before result }
{
    if !before.every.has(word(file, i, IF_Y)) {
        return None;
    }
    if !before.every.has(word(file, i, IF_Z)) {
        return None;
    }
    let first = word(file, i, IF_THEN);
    let one = goals(file, rows, before, first)?;
    let second = word(file, i, IF_ELSE);
    if second == 0 {
        return Some(one.join(before));
    }
    let other = goals(file, rows, before, second)?;
    Some(one.join(other))
}

// A try: its condition and from there its then part; its else part from what is carried before it.
#[cycle(arms_attempt_branches_goal_goals_switch)]
fn attempt(file: &[u8], rows: &[u64; ROWS], before: Valuation, i: usize) -> Option<Valuation>
    requires formed { Formed file.now }
    requires all_noted { AllNoted file.now rows.now }
    requires kind_word_value { word file.now i kind_word ≡ try_kind }
    ensures { GoalAfter file.now i before result }
{
    let condition = word(file, i, TRY_CONDITION);
    let holds = goals(file, rows, before, condition)?;
    let first = word(file, i, TRY_THEN);
    let one = goals(file, rows, holds, first)?;
    let otherwise = word(file, i, TRY_ELSE);
    if otherwise == 0 {
        return Some(one.join(before));
    }
    let other = goals(file, rows, before, otherwise)?;
    Some(one.join(other))
}

// The arms from record i on, each from what is carried before them.
#[cycle(arms_attempt_branches_goal_goals_switch)]
fn arms(file: &[u8], rows: &[u64; ROWS], before: Valuation, i: usize) -> Option<Valuation>
    requires formed { Formed file.now }
    requires all_noted { AllNoted file.now rows.now }
    requires stands { Stands file.now arms i }
    ensures { ArmsAfter file.now i before result }
{
    if i == 0 {
        return Some(before);
    }
    if word(file, i, KIND) != ARM {
        return None;
    }
    let entered = before.after(rows, i)?;
    let first = word(file, i, ARM_GOALS);
    let one = goals(file, rows, entered, first)?;
    let next = word(file, i, NEXT);
    if next == 0 {
        return Some(one);
    }
    let other = arms(file, rows, before, next)?;
    Some(one.join(other))
}
