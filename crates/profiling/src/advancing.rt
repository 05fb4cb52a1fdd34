// The profile, part by part.
ghost use Rattle.std.specs.Prelude.{◌≤◌, length};
ghost use Rattle.plans.specs.Plan.{tables_in, Narrow, Numbered};
ghost use Rattle.profiling.specs.Text.{line_bytes};
ghost use Rattle.profiling.specs.Moving.{RunStands};
ghost use Rattle.profiling.specs.Advancing.{Advances};

use crate::moving::forward;
use crate::noting::note;
use crate::text::LINE_BYTES;
use crate::{Part, Point};
use machine::{LOG_WORDS, SAVED_WORDS};
use plans::{CALLEES, PLAN};
use std::ops::ControlFlow;

// Steps from where the run stands until there may be no room for one more line, or until the run has ended. The lines of these steps stand at the
// front of `out`.
pub fn advance(
    file: &[u8],
    plan: &[usize; PLAN],
    images: &[u8],
    callees: &[u64; CALLEES],
    point: Point,
    cells: &mut [u32],
    regions: &mut [u32],
    frames: &mut [u32],
    prints: &mut [u32],
    log: &mut [u32; LOG_WORDS],
    own: &mut [u32; SAVED_WORDS],
    steps: usize,
    out: &mut [u8],
) -> Part
    requires narrow { Narrow plan.now images.now × Numbered file.now plan.now }
    requires line_bytes_in_bounds { line_bytes ≤ length out.old }
    requires run_stands { RunStands file.now (tables_in plan.now images.now callees.now) steps cells.old regions.old frames.old prints.old
        log.old own.old point }
    ensures { Advances file.now (tables_in plan.now images.now callees.now) steps
        cells.old regions.old frames.old prints.old point out.old
        cells.new regions.new frames.new prints.new log.new own.new out.new result }
{
    let mut here = point;
    let mut at = 0;
    // as long as there is room for the longest line: no count
    while LINE_BYTES <= out.len() - at {
        let moved = forward(
            file, plan, images, callees, here, cells, regions, frames, prints, log, own, steps,
        );
        match moved {
            ControlFlow::Continue(next) => {
                at = note(out, at, here, next);
                here = next;
            }
            ControlFlow::Break(ending) => return Part::Last(at, ending, here.done),
        }
    }
    Part::More(at, here)
}
