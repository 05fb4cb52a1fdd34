// The profile, part by part: each is written before the next is worked out. That all parts together are the profile is `profile_whole` of profiling.
ghost use Rattle.std.specs.Prelude.{◌≤◌, length};
ghost use Rattle.plans.specs.Plan.{tables_in, Narrow, Numbered};
ghost use Rattle.running.specs.Lent.{steps_lent};
ghost use Rattle.profiling.specs.Text.{line_bytes};
ghost use Rattle.profiling.specs.Moving.{RunStands};

use answering::print;
use language::Ending;
use lines::put_ending;
use machine::{LOG_WORDS, SAVED_WORDS};
use plans::{CALLEES, PLAN};
use profiling::{Part, Point, advance};
use running::lent::STEPS;

// The last line.
fn print_ending(rt: &HostRuntime, out: &mut [u8], ending: Ending, steps: usize)
    requires { line_bytes ≤ length out.old }
{
    let n = put_ending(&mut out[..], 0, ending, steps as u64);
    print(rt, &out[..n]);
}

// From where the run stands to its end.
pub fn print_parts(
    rt: &HostRuntime,
    file: &[u8],
    plan: &[usize; PLAN],
    images: &[u8],
    callees: &[u64; CALLEES],
    first: Point,
    cells: &mut [u32],
    regions: &mut [u32],
    frames: &mut [u32],
    prints: &mut [u32],
    log: &mut [u32; LOG_WORDS],
    own: &mut [u32; SAVED_WORDS],
    out: &mut [u8],
)
    requires narrow { Narrow plan.now images.now × Numbered file.now plan.now }
    requires line_bytes_in_bounds { line_bytes ≤ length out.old }
    requires run_stands { RunStands file.now (tables_in plan.now images.now callees.now) steps_lent cells.old regions.old frames.old prints.old
        log.old own.old first }
{
    let mut point = first;
    loop {
        let part = advance(
            file, plan, images, callees, point, cells, regions, frames, prints, log, own, STEPS,
            out,
        );
        match part {
            Part::More(n, next) => {
                print(rt, &out[..n]);
                point = next;
            }
            Part::Last(n, ending, steps) => {
                print(rt, &out[..n]);
                print_ending(rt, out, ending, steps);
                return;
            }
        }
    }
}
