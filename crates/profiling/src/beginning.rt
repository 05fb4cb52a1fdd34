// A run before its first step.
ghost use Rattle.std.specs.Prelude.{List, ℕ, ◌≤◌, ◌<◌, ◌≡◌, length, Ok};
ghost use Rattle.language.specs.Machine.{holds};
ghost use Rattle.language.specs.Answers.{checked};
ghost use Rattle.lines.specs.Put.{Put};
ghost use Rattle.word_machine.specs.Machine.{frame_words};
ghost use Rattle.word_machine.specs.Tables.{Tables, Tabled};
ghost use Rattle.plans.specs.Plan.{tables_in};
ghost use Rattle.machine.specs.Entries.{log_words};
ghost use Rattle.profiling.specs.Statement.{line_text, entry_line};
ghost use Rattle.profiling.specs.Text.{line_bytes};
ghost use Rattle.profiling.specs.Moving.{RunStands};

use crate::noting::held_at;
use crate::text::put_line;
use crate::{Counts, Line, Open, Point};
use frames::clear;
use machine::{first_state, size_of};
use memory::empty;
use plans::CALLEES;

fn no_counts() -> Counts
    ensures { result ≡ record { cells = 0; regions = 0 } }
{
    Counts {
        cells: 0,
        regions: 0,
    }
}

// No condition is open.
pub fn closed() -> Open
    ensures { result.at ≡ 0 }
{
    Open {
        at: 0,
        logged: 0,
        left: no_counts(),
        before: no_counts(),
    }
}

// "The entry's frame is taken first."
pub fn begin(callees: &[u64; CALLEES], cells: &[u32], regions: &[u32], frames: &mut [u32]) -> Point
    requires { frame_words ≤ length frames.old }
    ensures { (f plan images ps : List ℕ) (l : ℕ) → checked f ≡ Ok tt → Tabled f (tables_in plan images callees.now)
        → 0 < holds (length frames.old) frame_words
        → (log own : List ℕ) → length log ≡ log_words → (result.done ≡ 0)
        × RunStands f (tables_in plan images callees.now) l cells.now regions.now frames.new ps log own result }
{
    clear(frames, 1, size_of(callees, 0));
    Point {
        state: first_state(callees),
        heap: empty(cells, regions),
        counts: no_counts(),
        done: 0,
        condition: closed(),
    }
}

// The line of the entry's frame.
pub fn put_entry(out: &mut [u8], point: Point) -> usize
    requires { line_bytes ≤ length out.old }
    ensures by_index { (f : List ℕ) (T : Tables) (l : ℕ) (m rs fw ps log own : List ℕ) → RunStands f T l m rs fw ps log own point → point.done ≡ 0
        → Put out.old 0 (line_text (entry_line f)) out.new result }
    ensures upper_bound { result ≤ length out.new }
{
    put_line(
        out,
        0,
        Line {
            step: 0,
            held: held_at(point),
            goal: 0,
        },
    )
}
