// The runner's answer on standard output.
ghost use Rattle.std.specs.Prelude.{◌≡◌, length, Ok};
ghost use Rattle.language.specs.Machine.{runner_lent};
ghost use Rattle.language.specs.Answers.{checked, ran};
ghost use Rattle.language.specs.Output.{runner_output};
ghost use Rattle.lines.specs.Put.{Front};
ghost use Rattle.answering.specs.Ran.{output_bytes};

use crate::print;
use checking::check;
use language::format::MAX_BYTES;
use lines::{ENDING_BYTES, NUMBER_BYTES, put_refusal, runner_output};
use running::lent::{PRINTS, STEPS, cell_words, frame_words, print_words, region_words};
use running::run_accepted;

// Room for the lines of the numbers printed and of the ending.
const OUTPUT_BYTES: usize = NUMBER_BYTES * PRINTS + ENDING_BYTES;

fn output() -> [u8; OUTPUT_BYTES]
    ensures { output_bytes ≡ length result }
{
    [0; OUTPUT_BYTES]
}

// What the runner prints for an accepted file, at the front of `out`. Answers how many bytes that are. The memory is lent here, where the stack of
// the checker's walks is given back.
#[inline(never)]
fn accepted_answer(file: &[u8], out: &mut [u8]) -> usize
    requires file_value { checked file.now ≡ Ok tt }
    requires output_bytes_value { output_bytes ≡ length out.old }
    ensures { Front (runner_output (ran file.now runner_lent)) out.old out.new result }
{
    let mut cells = cell_words();
    let mut regions = region_words();
    let mut frames = frame_words();
    let mut prints = print_words();
    let r = run_accepted(
        file,
        &mut cells,
        &mut regions,
        &mut frames,
        &mut prints,
        STEPS,
    );
    let n = r.printed;
    let ending = r.ending;
    runner_output(&prints[..n], ending, r.steps as u64, out)
}

// What the runner prints for any bytes. The run stays apart (`inline(never)`): what has one caller the compiler puts into it, two like calls it may make
// one, and the run's tables would lie on the stack beside the checker's, below its walks.
fn runner_answer(file: &[u8], out: &mut [u8]) -> usize
    requires { output_bytes ≡ length out.old }
    ensures { Front (runner_output (ran file.now runner_lent)) out.old out.new result }
{
    if let Err(r) = check(file) {
        return put_refusal(out, 0, r);
    }
    if file.len() < MAX_BYTES {
        return accepted_answer(file, out);
    }
    accepted_answer(file, out)
}

pub fn print_run(rt: &HostRuntime, file: &[u8]) {
    let mut out = output();
    let n = runner_answer(file, &mut out);
    print(rt, &out[..n]);
}
