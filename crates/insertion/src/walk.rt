// The walk over goals that lays them with the creates and removes of "Annotator". What the walk is lent is lent on by one word each, and steps are laid
// outside of it, so that a level takes 112 bytes of the stack.
ghost use Rattle.language.specs.File;
ghost use Rattle.chains.specs.Formed.{Formed, Stands};
ghost use Rattle.chains.specs.Shapes.{IsSwitch, IsIf, IsTry};
ghost use Rattle.insertion.specs.Done.{LaysGoals, LaysGoal, LaysPart, LaysArms};
ghost use Rattle.insertion.specs.Along.{HasParts};

use crate::Cursor;
use crate::points::past;
use crate::starts::{either, start_part};
use crate::step::steps;
use chains::word;
use language::Goal;
use language::format::{
    ARM_GOALS, IF_ELSE, IF_THEN, MAX_BYTES, NEXT, SWITCH_ARMS, TRY_CONDITION, TRY_ELSE, TRY_THEN,
};
use laying::{store_arm, store_if, store_switch, store_try};
use liveness::POINTS;
use tables::ROWS;
use writer::behind;

// The goals from record start on, which is a goal with parts.
#[cycle(arms_attempt_branches_chain_goals_part_switch)]
pub fn goals(
    file: &&[u8],
    rows: &[u64; ROWS],
    points: &[u64; POINTS],
    out: &mut [u8; MAX_BYTES],
    at: &mut Cursor,
    start: usize,
)
    requires formed { Formed file.now.now }
    requires stands { Stands file.now.now File.goals start × HasParts file.now.now start }
    ensures { LaysGoals file.now.now rows.now points.now start out.old out.new at.old at.new }
{
    let mut i = start;
    while i != 0 {
        match chains::goal(*file, i) {
            Goal::Switch => switch(file, rows, points, out, at, i),
            Goal::If => branches(file, rows, points, out, at, i),
            _ => attempt(file, rows, points, out, at, i),
        }
        let next = word(*file, i, NEXT);
        i = steps(file, rows, points, out, at, next);
    }
}

// A switch: its arms, then its own record in front of them.
#[cycle(arms_attempt_branches_chain_goals_part_switch)]
fn switch(
    file: &&[u8],
    rows: &[u64; ROWS],
    points: &[u64; POINTS],
    out: &mut [u8; MAX_BYTES],
    at: &mut Cursor,
    i: usize,
)
    requires formed { Formed file.now.now }
    requires switch { IsSwitch file.now.now i }
    ensures { LaysGoal file.now.now rows.now points.now i out.old out.new at.old at.new }
{
    let first = at.next;
    let whole = at.point;
    let start = behind(first);
    *at = Cursor {
        next: start,
        point: past(whole),
    };
    let cases = word(*file, i, SWITCH_ARMS);
    arms(file, rows, points, out, at, cases, whole);
    store_switch(*file, out, i, first, start, at.next);
}

// An if: its first part, its second, then its own record in front of them.
#[cycle(arms_attempt_branches_chain_goals_part_switch)]
fn branches(
    file: &&[u8],
    rows: &[u64; ROWS],
    points: &[u64; POINTS],
    out: &mut [u8; MAX_BYTES],
    at: &mut Cursor,
    i: usize,
)
    requires formed { Formed file.now.now }
    requires fact { IsIf file.now.now i }
    ensures { LaysGoal file.now.now rows.now points.now i out.old out.new at.old at.new }
{
    let first = at.next;
    let whole = at.point;
    let start = behind(first);
    *at = Cursor {
        next: start,
        point: past(whole),
    };
    let yes = word(*file, i, IF_THEN);
    part(file, rows, points, out, at, yes, whole);
    let middle = at.next;
    let no = word(*file, i, IF_ELSE);
    part(file, rows, points, out, at, no, whole);
    store_if(*file, out, i, first, start, middle, at.next);
}

// A try: its condition, its then part, its else part, then its own record in front of them. The condition starts with the removes of what only the
// else part needs, and ends with what the then part starts from.
#[cycle(arms_attempt_branches_chain_goals_part_switch)]
fn attempt(
    file: &&[u8],
    rows: &[u64; ROWS],
    points: &[u64; POINTS],
    out: &mut [u8; MAX_BYTES],
    at: &mut Cursor,
    i: usize,
)
    requires formed { Formed file.now.now }
    requires fact { IsTry file.now.now i }
    ensures { LaysGoal file.now.now rows.now points.now i out.old out.new at.old at.new }
{
    let first = at.next;
    let whole = at.point;
    let start = behind(first);
    *at = Cursor {
        next: start,
        point: past(whole),
    };
    let condition = word(*file, i, TRY_CONDITION);
    let then = word(*file, i, TRY_THEN);
    start_part(points, out, at, whole, either(condition, then), condition);
    chain(file, rows, points, out, at, condition);
    let yes = at.next;
    chain(file, rows, points, out, at, then);
    let no = at.next;
    let other = word(*file, i, TRY_ELSE);
    part(file, rows, points, out, at, other, whole);
    store_try(*file, out, i, first, start, yes, no, at.next);
}

// A part of the goal whose point is at `whole`: removes, then the goals from record start on. (They are laid as `chain` lays them, and not by it: a
// level of switches then takes 16 bytes less of the stack.)
#[cycle(arms_attempt_branches_chain_goals_part_switch)]
fn part(
    file: &&[u8],
    rows: &[u64; ROWS],
    points: &[u64; POINTS],
    out: &mut [u8; MAX_BYTES],
    at: &mut Cursor,
    start: usize,
    whole: usize,
)
    requires formed { Formed file.now.now }
    requires stands { Stands file.now.now File.goals start }
    ensures { LaysPart file.now.now rows.now points.now start out.old out.new at.old at.new whole }
{
    start_part(points, out, at, whole, start, start);
    let i = steps(file, rows, points, out, at, start);
    if i != 0 {
        goals(file, rows, points, out, at, i);
    }
}

// The goals from record start on. Steps alone are no call back into the walk.
#[cycle(arms_attempt_branches_chain_goals_part_switch)]
fn chain(
    file: &&[u8],
    rows: &[u64; ROWS],
    points: &[u64; POINTS],
    out: &mut [u8; MAX_BYTES],
    at: &mut Cursor,
    start: usize,
)
    requires formed { Formed file.now.now }
    requires stands { Stands file.now.now File.goals start }
    ensures { LaysGoals file.now.now rows.now points.now start out.old out.new at.old at.new }
{
    let i = steps(file, rows, points, out, at, start);
    if i != 0 {
        goals(file, rows, points, out, at, i);
    }
}

// The arms from record i on, of the switch whose point is at `whole`: the goals of the first, the later arms, then its own record in front of them.
#[cycle(arms_attempt_branches_chain_goals_part_switch)]
fn arms(
    file: &&[u8],
    rows: &[u64; ROWS],
    points: &[u64; POINTS],
    out: &mut [u8; MAX_BYTES],
    at: &mut Cursor,
    i: usize,
    whole: usize,
)
    requires formed { Formed file.now.now }
    requires stands { Stands file.now.now File.arms i }
    ensures { LaysArms file.now.now rows.now points.now i out.old out.new at.old at.new whole }
{
    if i == 0 {
        return;
    }
    let first = at.next;
    let start = behind(first);
    let point = at.point;
    *at = Cursor {
        next: start,
        point: point,
    };
    let inside = word(*file, i, ARM_GOALS);
    part(file, rows, points, out, at, inside, whole);
    let end = at.next;
    let next = word(*file, i, NEXT);
    arms(file, rows, points, out, at, next, whole);
    store_arm(*file, out, i, first, start, end);
}
