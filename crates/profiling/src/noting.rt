// A line for a step that changes what is held.
ghost use Rattle.std.specs.Prelude.{◌+◌, ◌≤◌, ◌≡◌, length};
ghost use Rattle.profiling.specs.Text.{line_bytes};
ghost use Rattle.profiling.specs.Standing.{frames_in};
ghost use Rattle.profiling.specs.Noting.{held_at, Notes};

use crate::text::put_line;
use crate::{Held, Line, Point};
use machine::State;

// The newest frame and those below it; none once the run has ended.
fn frames_at(state: State) -> u64
    ensures { result ≡ frames_in state.goal state.top }
{
    if state.goal == 0 {
        return 0;
    }
    state.top as u64 + 1
}

// What is held where a run stands.
pub fn held_at(point: Point) -> Held
    ensures { result ≡ held_at point }
{
    let counts = point.counts;
    Held {
        cells: counts.cells as u64,
        regions: counts.regions as u64,
        frames: frames_at(point.state),
    }
}

// The line of the step from one point to the next, if it changed what is held.
pub fn note(out: &mut [u8], at: usize, from: Point, to: Point) -> usize
    requires { at + line_bytes ≤ length out.old }
    ensures notes { Notes from to out.old at out.new result }
    ensures upper_bound { result ≤ length out.new }
{
    let held = held_at(to);
    if held == held_at(from) {
        return at;
    }
    let state = from.state;
    put_line(
        out,
        at,
        Line {
            step: to.done as u64,
            held,
            goal: state.goal as u64,
        },
    )
}
