// The walk backward over goals. A part's points need what is live after the whole goal, so the table is filled from its end downward: the rest of
// a chain first, then the goal's parts, then the goal's own point. The file is lent on by one word, which keeps a level's stack small.
ghost use Rattle.std.specs.Prelude.{◌≡◌, ◌<◌};
ghost use Rattle.language.specs.File.{goals, arms, word, record_count};
ghost use Rattle.language.specs.Format.{kind_word, switch_kind, if_kind, try_kind};
ghost use Rattle.records.specs.Sizes.{record_words};
ghost use Rattle.chains.specs.Formed.{Formed, Stands};
ghost use Rattle.tables.specs.Filled.{Accessed};
ghost use Rattle.liveness.specs.Done.{GoalsDone, GoalDone, ArmsDone};

use crate::POINTS;
use crate::carried::{Carried, put_point};
use crate::step::step;
use chains::word;
use language::Goal;
use language::format::{
    ARM_GOALS, GOAL_X, IF_ELSE, IF_THEN, IF_Y, IF_Z, NEXT, SWITCH_ARMS, TRY_CONDITION, TRY_ELSE,
    TRY_THEN,
};
use sets::Set;
use tables::{ROWS, gives_at};

// Writes the points of the goals from record i on.
#[cycle(arms_attempt_branches_goal_goals_part_switch)]
pub fn goals(
    file: &&[u8],
    rows: &[u64; ROWS],
    i: usize,
    carried: &mut Carried,
    table: &mut [u64; POINTS],
)
    requires formed { Formed file.now.now }
    requires accessed { Accessed file.now.now rows.now }
    requires stands { Stands file.now.now goals i }
    ensures { GoalsDone file.now.now rows.now i carried.old table.old carried.new table.new }
{
    if i == 0 {
        return;
    }
    part(file, rows, i, NEXT, carried, table);
    goal(file, rows, i, carried, table);
}

// The same for the goals that word k of record i leads to. Every call back into the walk goes through here, which keeps a level's stack small.
#[cycle(arms_attempt_branches_goal_goals_part_switch)]
fn part(
    file: &&[u8],
    rows: &[u64; ROWS],
    i: usize,
    k: usize,
    carried: &mut Carried,
    table: &mut [u64; POINTS],
)
    requires formed { Formed file.now.now }
    requires accessed { Accessed file.now.now rows.now }
    requires k_lt_record_words { (k < record_words) × ((i < record_count file.now.now) × Stands file.now.now goals (word file.now.now i k)) }
    ensures { GoalsDone file.now.now rows.now (word file.now.now i k) carried.old table.old carried.new table.new }
{
    let start = word(*file, i, k);
    if start == 0 {
        return;
    }
    goals(file, rows, start, carried, table);
}

// Writes the points of the goal at record i.
#[cycle(arms_attempt_branches_goal_goals_part_switch)]
fn goal(
    file: &&[u8],
    rows: &[u64; ROWS],
    i: usize,
    carried: &mut Carried,
    table: &mut [u64; POINTS],
)
    requires formed { Formed file.now.now }
    requires accessed { Accessed file.now.now rows.now }
    requires stands { Stands file.now.now goals i × (i ≡ 0 → ⊥) }
    ensures { GoalDone file.now.now rows.now i carried.old table.old carried.new table.new }
{
    match chains::goal(*file, i) {
        Goal::Switch => switch(file, rows, i, carried, table),
        Goal::If => branches(file, rows, i, carried, table),
        Goal::Try => attempt(file, rows, i, carried, table),
        _ => step(rows, i, carried, table),
    }
}

// A switch: its arms, then its own point.
#[cycle(arms_attempt_branches_goal_goals_part_switch)]
fn switch(
    file: &&[u8],
    rows: &[u64; ROWS],
    i: usize,
    carried: &mut Carried,
    table: &mut [u64; POINTS],
)
    requires formed { Formed file.now.now }
    requires accessed { Accessed file.now.now rows.now }
    requires kind_word_value { word file.now.now i kind_word ≡ switch_kind }
    ensures { GoalDone file.now.now rows.now i carried.old table.old carried.new table.new }
{
    let after = carried.live;
    let first = word(*file, i, SWITCH_ARMS);
    arms(file, rows, first, carried, table);
    let x = Set::of(word(*file, i, GOAL_X));
    let needed = carried.live;
    put_point(x.union(needed), after, carried, table);
}

// An if: its second part, its first, then its own point.
#[cycle(arms_attempt_branches_goal_goals_part_switch)]
fn branches(
    file: &&[u8],
    rows: &[u64; ROWS],
    i: usize,
    carried: &mut Carried,
    table: &mut [u64; POINTS],
)
    requires formed { Formed file.now.now }
    requires accessed { Accessed file.now.now rows.now }
    requires kind_word_value { word file.now.now i kind_word ≡ if_kind }
    ensures { GoalDone file.now.now rows.now i carried.old table.old carried.new table.new }
{
    let after = carried.live;
    part(file, rows, i, IF_ELSE, carried, table);
    let other = carried.live;
    carried.live = after;
    part(file, rows, i, IF_THEN, carried, table);
    let one = carried.live;
    let y = Set::of(word(*file, i, IF_Y));
    let z = Set::of(word(*file, i, IF_Z));
    put_point(y.union(z).union(one.union(other)), after, carried, table);
}

// A try: its else part, its then part, the condition in front of that, then its own point. "inside the condition the else part doesn't count"
#[cycle(arms_attempt_branches_goal_goals_part_switch)]
fn attempt(
    file: &&[u8],
    rows: &[u64; ROWS],
    i: usize,
    carried: &mut Carried,
    table: &mut [u64; POINTS],
)
    requires formed { Formed file.now.now }
    requires accessed { Accessed file.now.now rows.now }
    requires kind_word_value { word file.now.now i kind_word ≡ try_kind }
    ensures { GoalDone file.now.now rows.now i carried.old table.old carried.new table.new }
{
    let after = carried.live;
    part(file, rows, i, TRY_ELSE, carried, table);
    let other = carried.live;
    carried.live = after;
    part(file, rows, i, TRY_THEN, carried, table);
    part(file, rows, i, TRY_CONDITION, carried, table);
    let one = carried.live;
    put_point(one.union(other), after, carried, table);
}

// Writes the points of the arms from record i on, all with the same live behind them.
#[cycle(arms_attempt_branches_goal_goals_part_switch)]
fn arms(
    file: &&[u8],
    rows: &[u64; ROWS],
    i: usize,
    carried: &mut Carried,
    table: &mut [u64; POINTS],
)
    requires formed { Formed file.now.now }
    requires accessed { Accessed file.now.now rows.now }
    requires stands { Stands file.now.now arms i }
    ensures { ArmsDone file.now.now rows.now i carried.old table.old carried.new table.new }
{
    if i == 0 {
        carried.live = Set::EMPTY;
        return;
    }
    let after = carried.live;
    let next = word(*file, i, NEXT);
    arms(file, rows, next, carried, table);
    let other = carried.live;
    carried.live = after;
    part(file, rows, i, ARM_GOALS, carried, table);
    let live = carried.live;
    let bound = gives_at(rows, i);
    carried.live = live.difference(bound).union(other);
}
