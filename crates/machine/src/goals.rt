// Goals that change values of the newest frame alone, and the goal that comes next.
ghost use Rattle.std.specs.Prelude.{◌≡◌, ◌+◌, ◌*◌, ◌≤◌, ◌<◌, length, get_or, set};
ghost use Rattle.std.specs.Int.{w32};
ghost use Rattle.std.proofs.Common.{to_z};
ghost use Rattle.language.specs.Lists.{choose};
ghost use Rattle.language.specs.Numbers.{less};
ghost use Rattle.language.specs.File.{word};
ghost use Rattle.language.specs.Format.{record_bytes, max_records, max_variables, goal_x, literal_value, sum_y, sum_z, assign_y, if_y, if_z, if_then, if_else, test_y, test_z};
ghost use Rattle.word_machine.specs.Machine.{frame_words, literal_word};
ghost use Rattle.machine.specs.GoalWords.{sum_at};

use frames::{give, less_words, literal_word, sum_of, value};
use language::format::{
    ASSIGN_Y, GOAL_X, IF_ELSE, IF_THEN, IF_Y, IF_Z, LITERAL_VALUE, SUM_OPERATION, SUM_Y, SUM_Z,
    TEST_Y, TEST_Z,
};
use plans::PLAN;
use records::word_in;

// "After a goal chain ends, the next goal is the enclosing goal's next": the goal after the one at record i.
pub fn successor(plan: &[usize; PLAN], i: usize) -> usize
    requires { i < max_records }
    ensures { result ≡ get_or plan.now i 0 }
{
    plan[i]
}

// "Literal .. gives X a value".
pub fn literal(file: &[u8], i: usize, at: usize, frames: &mut [u32])
    requires record_bytes_in_bounds { (record_bytes * i + record_bytes ≤ length file.now) × (at + frame_words ≤ length frames.old) }
    requires goal_x_bound { word file.now i goal_x ≤ max_variables }
    ensures { frames.new ≡ set frames.old (at + word file.now i goal_x)
        (literal_word (word file.now i literal_value)) }
{
    let v = word_in(file, i, LITERAL_VALUE) as u32;
    give(frames, at, word_in(file, i, GOAL_X), literal_word(v));
}

// ".. sum ..": the sum or difference of Y and Z, in full.
pub fn sum(file: &[u8], i: usize, at: usize, frames: &[u32]) -> i64
    requires record_bytes_in_bounds { (record_bytes * i + record_bytes ≤ length file.now) × (at + frame_words ≤ length frames.now) }
    requires sum_y_bound { (word file.now i sum_y ≤ max_variables) × (word file.now i sum_z ≤ max_variables) }
    ensures { result ≡ sum_at file.now i at frames.now }
{
    let y = value(frames, at, word_in(file, i, SUM_Y));
    let z = value(frames, at, word_in(file, i, SUM_Z));
    sum_of(word_in(file, i, SUM_OPERATION), y, z)
}

// ".. and assign".
pub fn assign(file: &[u8], i: usize, at: usize, frames: &mut [u32])
    requires record_bytes_in_bounds { (record_bytes * i + record_bytes ≤ length file.now) × (at + frame_words ≤ length frames.old) }
    requires goal_x_bound { (word file.now i goal_x ≤ max_variables) × (word file.now i assign_y ≤ max_variables) }
    ensures { frames.new ≡ set frames.old (at + word file.now i goal_x)
        (get_or frames.old (at + word file.now i assign_y) 0) }
{
    let v = value(&frames[..], at, word_in(file, i, ASSIGN_Y));
    give(frames, at, word_in(file, i, GOAL_X), v);
}

// The first goal of an if's part: "if Y < Z".
pub fn part_of(file: &[u8], i: usize, at: usize, frames: &[u32]) -> usize
    requires record_bytes_in_bounds { (record_bytes * i + record_bytes ≤ length file.now) × (at + frame_words ≤ length frames.now) }
    requires if_y_bound { (word file.now i if_y ≤ max_variables) × (word file.now i if_z ≤ max_variables) }
    ensures { result ≡ choose (less (to_z w32 (get_or frames.now (at + word file.now i if_y) 0))
        (to_z w32 (get_or frames.now (at + word file.now i if_z) 0)))
        (word file.now i if_then) (word file.now i if_else) }
{
    let y = value(frames, at, word_in(file, i, IF_Y));
    let z = value(frames, at, word_in(file, i, IF_Z));
    if less_words(y, z) {
        word_in(file, i, IF_THEN)
    } else {
        word_in(file, i, IF_ELSE)
    }
}

// Whether a test passes: "fails unless Y < Z".
pub fn passes(file: &[u8], i: usize, at: usize, frames: &[u32]) -> bool
    requires record_bytes_in_bounds { (record_bytes * i + record_bytes ≤ length file.now) × (at + frame_words ≤ length frames.now) }
    requires test_y_bound { (word file.now i test_y ≤ max_variables) × (word file.now i test_z ≤ max_variables) }
    ensures { result ≡ less (to_z w32 (get_or frames.now (at + word file.now i test_y) 0))
        (to_z w32 (get_or frames.now (at + word file.now i test_z) 0)) }
{
    let y = value(frames, at, word_in(file, i, TEST_Y));
    let z = value(frames, at, word_in(file, i, TEST_Z));
    less_words(y, z)
}
