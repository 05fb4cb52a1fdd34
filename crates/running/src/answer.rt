// The runner's answer.
ghost use Rattle.std.specs.Prelude.{◌≡◌, Ok};
ghost use Rattle.language.specs.Answers.{checked};
ghost use Rattle.machine.specs.Joining.{RanAs};
ghost use Rattle.running.specs.Answer.{LentAfter};

use crate::accepted::run_accepted;
use checking::check;
use language::Ending;
use machine::Outcome;

// The run of an accepted file, apart (`inline(never)`): what has one caller the compiler puts into it, and the run's tables would lie on the stack of
// `run`, below the checker's walks.
#[inline(never)]
fn run_apart(
    file: &[u8],
    cells: &mut [u32],
    regions: &mut [u32],
    frames: &mut [u32],
    prints: &mut [u32],
    steps: usize,
) -> Outcome
    requires { checked file.now ≡ Ok tt }
    ensures { RanAs file.now cells.old regions.old frames.old prints.old steps
        result prints.new }
{
    run_accepted(file, cells, regions, frames, prints, steps)
}

// Refuses as the checker does, with all lent memory as it was; else a run in it. Of an accepted file's run the words lent for cells, regions and
// frames are free afterwards.
pub fn run(
    file: &[u8],
    cells: &mut [u32],
    regions: &mut [u32],
    frames: &mut [u32],
    prints: &mut [u32],
    steps: usize,
) -> Outcome
    ensures ran_as { RanAs file.now cells.old regions.old frames.old prints.old steps
        result prints.new }
    ensures lent_after { LentAfter file.now cells.old regions.old frames.old prints.old
        cells.new regions.new frames.new prints.new }
{
    if let Err(r) = check(file) {
        return Outcome {
            ending: Ending::Refused(r),
            steps: 0,
            printed: 0,
        };
    }
    run_apart(file, cells, regions, frames, prints, steps)
}
