// An accepted file's profile, in the memory that the runner program lends.
ghost use Rattle.std.specs.Prelude.{◌≡◌, ◌≤◌, length, Ok};
ghost use Rattle.language.specs.Answers.{checked};
ghost use Rattle.running.specs.Planned.{Planned};
ghost use Rattle.profiling.specs.Text.{line_bytes};
ghost use Rattle.profile.specs.Parts.{output_bytes};

use crate::parts::print_parts;
use answering::print;
use machine::{LOG_WORDS, SAVED_WORDS};
use plans::{CALLEES, IMAGES, PLAN};
use profiling::{LINE_BYTES, begin, put_entry};
use running::fill_tables;
use running::lent::{cell_words, frame_words, print_words, region_words};

// Room for 80 lines.
pub const OUTPUT_BYTES: usize = 80 * LINE_BYTES;

fn output() -> [u8; OUTPUT_BYTES]
    ensures { output_bytes ≡ length result }
{
    [0; OUTPUT_BYTES]
}

// By tables that are filled. A part of the profile has up to `room` bytes.
fn print_tabled(
    rt: &HostRuntime,
    file: &[u8],
    plan: &[usize; PLAN],
    images: &[u8; IMAGES],
    callees: &[u64; CALLEES],
    room: usize,
)
    requires planned { Planned file.now plan.now images.now callees.now }
    requires line_bytes_le_room { (line_bytes ≤ room) × (room ≤ output_bytes) }
{
    let mut cells = cell_words();
    let mut regions = region_words();
    let mut frames = frame_words();
    let mut prints = print_words();
    // what an open condition keeps beside the lent words (C-20): its log and the frame's words at the try
    let mut log = [0; LOG_WORDS];
    let mut own = [0; SAVED_WORDS];
    let mut out = output();
    let first = begin(callees, &cells, &regions, &mut frames);
    let n = put_entry(&mut out, first);
    print(rt, &out[..n]);
    print_parts(
        rt,
        file,
        plan,
        images,
        callees,
        first,
        &mut cells,
        &mut regions,
        &mut frames,
        &mut prints,
        &mut log,
        &mut own,
        &mut out[..room],
    );
}

pub fn print_accepted(rt: &HostRuntime, file: &[u8], room: usize)
    requires file_value { checked file.now ≡ Ok tt }
    requires line_bytes_le_room { (line_bytes ≤ room) × (room ≤ output_bytes) }
{
    let mut plan = [0; PLAN];
    let mut images = [0; IMAGES];
    let mut callees = [0; CALLEES];
    fill_tables(file, &mut plan, &mut images, &mut callees);
    print_tabled(rt, file, &plan, &images, &callees, room);
}
