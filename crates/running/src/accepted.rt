// The run of an accepted file.
ghost use Rattle.std.specs.Prelude.{◌≡◌, replicate, Ok};
ghost use Rattle.language.specs.Answers.{checked};
ghost use Rattle.plans.specs.Plan.{plan_words, image_bytes, callees_words};
ghost use Rattle.machine.specs.Joining.{RanAs};
ghost use Rattle.running.specs.Planned.{Planned};

use machine::{Outcome, run_words};
use plans::{CALLEES, IMAGES, PLAN, fill_plan};
use tables::blank_file_table;
use windows::list_procedures;

// Fills the tables that a run of an accepted file reads beside it.
pub fn fill_tables(
    file: &[u8],
    plan: &mut [usize; PLAN],
    images: &mut [u8; IMAGES],
    callees: &mut [u64; CALLEES],
)
    requires file_value { checked file.now ≡ Ok tt }
    requires plan_value { (plan.old ≡ replicate plan_words 0) × (images.old ≡ replicate image_bytes 0) × (callees.old ≡ replicate callees_words 0) }
    ensures { Planned file.now plan.new images.new callees.new }
{
    let mut table = blank_file_table();
    list_procedures(file, &mut table);
    fill_plan(file, &table, plan, images, callees);
}

// A run by tables that are filled.
fn run_tabled(
    file: &[u8],
    plan: &[usize; PLAN],
    images: &[u8; IMAGES],
    callees: &[u64; CALLEES],
    cells: &mut [u32],
    regions: &mut [u32],
    frames: &mut [u32],
    prints: &mut [u32],
    steps: usize,
) -> Outcome
    requires { Planned file.now plan.now images.now callees.now }
    ensures { RanAs file.now cells.old regions.old frames.old prints.old steps
        result prints.new }
{
    run_words(
        file, plan, images, callees, cells, regions, frames, prints, steps,
    )
}

// A run in lent words for cells, regions, frames and printed numbers. The tables that it reads are filled first. The words lent for cells, regions and
// frames are free afterwards.
pub fn run_accepted(
    file: &[u8],
    cells: &mut [u32],
    regions: &mut [u32],
    frames: &mut [u32],
    prints: &mut [u32],
    steps: usize,
) -> Outcome
    requires { checked file.now ≡ Ok tt }
    ensures { RanAs file.now cells.old regions.old frames.old prints.old steps
        result prints.new }
{
    let mut plan = [0; PLAN];
    let mut images = [0; IMAGES];
    let mut callees = [0; CALLEES];
    fill_tables(file, &mut plan, &mut images, &mut callees);
    run_tabled(
        file, &plan, &images, &callees, cells, regions, frames, prints, steps,
    )
}
