// Runs each job of a pack in lent memory of many sizes, and prints its name and the lines of each run.
//
// The pack comes on standard input, as pack-runs of rust/compare writes it: jobs one behind the other, each the length of its name in one byte, the name,
// the length of the file in three bytes, the file, how many runs in one byte, and for each run the words lent for cells, regions, frames and printed
// numbers, and the steps, in three bytes each; low bytes first.
#![tactic(auto)]

ghost use Rattle.std.specs.Prelude.{◌≤◌, ◌≡◌, length};
ghost use Rattle.lent_runs.specs.Lent.{cells_lent, regions_lent, frames_lent, prints_lent, file_bytes};

use language::format::RECORD_BYTES;
use lines::{ENDING_BYTES, NUMBER_BYTES, runner_output};
use machine::Outcome;
use packs::{JOBS, next_byte, next_bytes, next_digit, next_number, print_name};
use running::run;
use std::io::{Print, Stdin};

// As many words as a run of the pack is lent at most.
const CELLS: usize = 160;

const REGIONS: usize = 16;

const FRAMES: usize = 1000;

const PRINTS: usize = 16;

// A file of up to 64 records.
const FILE_BYTES: usize = 64 * RECORD_BYTES;

// Room for the lines of a run.
const OUTPUT_BYTES: usize = NUMBER_BYTES * PRINTS + ENDING_BYTES;

// What stands in lent memory before a run: no zeros that it might rely on.
const MARK: u32 = 3735928559;

fn cell_words() -> [u32; CELLS]
    ensures { cells_lent ≡ length result }
{
    [MARK; CELLS]
}

fn region_words() -> [u32; REGIONS]
    ensures { regions_lent ≡ length result }
{
    [MARK; REGIONS]
}

fn frame_words() -> [u32; FRAMES]
    ensures { frames_lent ≡ length result }
{
    [MARK; FRAMES]
}

fn print_words() -> [u32; PRINTS]
    ensures { prints_lent ≡ length result }
{
    [MARK; PRINTS]
}

fn file_memory() -> [u8; FILE_BYTES]
    ensures { file_bytes ≡ length result }
{
    [0; FILE_BYTES]
}

// How many words to lend; a line that no run has where there are not so many.
fn next_lent(rt: &HostRuntime, pack: &mut Stdin, most: usize) -> usize
    ensures { result ≤ most }
{
    let n = next_number(pack);
    if n <= most {
        return n;
    }
    let _ = rt.write_all(b"more than there is to lend\n");
    most
}

// A run in so many words of each sort.
fn run_in(
    file: &[u8],
    cells: usize,
    regions: usize,
    frames: usize,
    prints: &mut [u32],
    steps: usize,
) -> Outcome
    requires { (cells ≤ cells_lent) × (regions ≤ regions_lent) × (frames ≤ frames_lent) }
    ensures { result.printed ≤ length prints.new }
{
    let mut c = cell_words();
    let mut r = region_words();
    let mut f = frame_words();
    run(
        file,
        &mut c[..cells],
        &mut r[..regions],
        &mut f[..frames],
        prints,
        steps,
    )
}

fn print_lines(rt: &HostRuntime, prints: &[u32], r: Outcome)
    requires { (r.printed ≤ length prints.now) × (length prints.now ≤ prints_lent) }
{
    let n = r.printed;
    let ending = r.ending;
    let mut out = [0; OUTPUT_BYTES];
    let k = runner_output(&prints[..n], ending, r.steps as u64, &mut out);
    let _ = rt.write_all(&out[..k]);
    // "printed places past the last keep their contents"
    if !prints.iter().skip(n).all(|word| *word == MARK) {
        let _ = rt.write_all(b"a place behind the last number has changed\n");
    }
}

// A run and its lines.
fn try_in(
    rt: &HostRuntime,
    file: &[u8],
    cells: usize,
    regions: usize,
    frames: usize,
    prints: &mut [u32],
    steps: usize,
)
    requires cells_le_cells_lent { (cells ≤ cells_lent) × (regions ≤ regions_lent) × (frames ≤ frames_lent) }
    requires prints_len_bound { length prints.old ≤ prints_lent }
{
    let r = run_in(file, cells, regions, frames, &mut *prints, steps);
    print_lines(rt, &*prints, r);
}

fn try_run(rt: &HostRuntime, pack: &mut Stdin, file: &[u8]) {
    let cells = next_lent(rt, pack, CELLS);
    let regions = next_lent(rt, pack, REGIONS);
    let frames = next_lent(rt, pack, FRAMES);
    let n = next_lent(rt, pack, PRINTS);
    let steps = next_number(pack);
    let mut prints = print_words();
    try_in(rt, file, cells, regions, frames, &mut prints[..n], steps);
}

fn try_runs(rt: &HostRuntime, pack: &mut Stdin, file: &[u8], n: usize) {
    for _ in 0..n {
        try_run(rt, pack, file);
    }
}

// Whether there was a job.
fn try_job(rt: &HostRuntime, pack: &mut Stdin) -> bool {
    let Some(n) = next_byte(pack) else {
        return false;
    };
    print_name(rt, pack, usize::from(n));
    let _ = rt.write_all(b"\n");
    let mut file = file_memory();
    let bytes = next_number(pack);
    let k = next_bytes(pack, &mut file, bytes);
    let runs = next_digit(pack);
    try_runs(rt, pack, &file[..k], runs);
    true
}

fn main(rt: HostRuntime) {
    let mut pack = rt.stdin();
    for _ in 0..JOBS {
        if !try_job(&rt, &mut pack) {
            return;
        }
    }
}
