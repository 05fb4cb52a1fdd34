// The plan, the images and the callees of an accepted file.
ghost use Rattle.std.specs.Prelude.{◌≡◌, length, replicate};
ghost use Rattle.word_machine.specs.Tables.{Tabled};
ghost use Rattle.plans.specs.Plan.{plan_words, image_bytes, callees_words, tables_in, Narrow, Numbered};
ghost use Rattle.plans.specs.Passes.{TypedAndFilled, plan_of, images_of, callees_of};

use crate::arguments::match_calls;
use crate::callees::fill_callees;
use crate::images::fill_images;
use crate::joining::join_records;
use crate::onward::fill_onward;
use crate::sides::fill_sides;
use crate::{CALLEES, IMAGES, PLAN};
use language::format::MAX_RECORDS;
use owners::list_owners;
use tables::TABLE;

// Fills the plan and the images, which have zeros before, and the callees of a file that passed numbers 1 to 3, by the file's table.
pub fn fill_plan(
    file: &[u8],
    table: &[u64; TABLE],
    plan: &mut [usize; PLAN],
    images: &mut [u8; IMAGES],
    callees: &mut [u64; CALLEES],
)
    requires typed_and_filled { TypedAndFilled file.now table.now }
    requires plan_value { plan.old ≡ replicate plan_words 0 }
    requires images_value { images.old ≡ replicate image_bytes 0 }
    requires callees_len { length callees.old ≡ callees_words }
    ensures tabled { Tabled file.now (tables_in plan.new images.new callees.new) }
    ensures narrow { Narrow plan.new images.new }
    ensures numbered { Numbered file.now plan.new }
    ensures plan_after { plan.new ≡ plan_of file.now plan.old }
    ensures images_after { images.new ≡ images_of file.now images.old }
    ensures callees_after { callees.new ≡ callees_of table.now callees.old }
{
    let mut owners = [0; MAX_RECORDS];
    list_owners(file, &mut owners);
    fill_onward(file, plan);
    match_calls(file, table, plan);
    join_records(file, plan);
    fill_sides(file, table, &owners, plan);
    fill_images(file, table, &owners, images);
    fill_callees(table, callees);
}
