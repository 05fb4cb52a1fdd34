// The runner as it runs, joined with the theorem about the definitions.
ghost use Rattle.std.specs.Prelude.{◌≡◌, Ok};
ghost use Rattle.language.specs.Answers.{checked};
ghost use Rattle.machine.specs.Joining.{RanAs};
ghost use Rattle.running.specs.Answer.{LentAfter};
ghost use Rattle.agreement.specs.Runs.{AsPlain};

use machine::Outcome;
use running::run;

// Runs what the checker accepts, in lent memory: as far as the run comes, it prints what the plain run prints, and ends as that does. All that `run` promises
// is promised here too.
pub fn runs_as_plain(
    file: &[u8],
    cells: &mut [u32],
    regions: &mut [u32],
    frames: &mut [u32],
    prints: &mut [u32],
    steps: usize,
) -> Outcome
    ensures as_plain { checked file.now ≡ Ok tt → AsPlain file.now steps result prints.new }
    ensures ran_as { RanAs file.now cells.old regions.old frames.old prints.old steps
        result prints.new }
    ensures lent_after { LentAfter file.now cells.old regions.old frames.old prints.old
        cells.new regions.new frames.new prints.new }
{
    run(file, cells, regions, frames, prints, steps)
}
