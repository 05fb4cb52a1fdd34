// The caller's region for each call and region of its callee.
ghost use Rattle.std.specs.Prelude.{◌≡◌, ℕ, ◌+◌, ◌-◌, ◌<◌, length, get_or};
ghost use Rattle.language.specs.File.{record_count};
ghost use Rattle.language.specs.Format.{places};
ghost use Rattle.regions.specs.Here.{Given};
ghost use Rattle.chains.specs.Shapes.{IsCall};
ghost use Rattle.regions.specs.CallMap.{Blank};
ghost use Rattle.regions.specs.CallEffect.{CallHere};
ghost use Rattle.plans.specs.Plan.{image_bytes};
ghost use Rattle.plans.specs.Passes.{Regional, copied, picturing};
ghost use Rattle.plans.specs.Images.{CallImages, LastCall};

use crate::IMAGES;
use crate::sides::image_count;
use language::format;
use language::format::PLACES;
use records::word;
use regions::{call_repeats, map_call, owner_of};
use tables::start_of;

// Zeros in every place.
fn clear(found: &mut [usize; PLACES])
    requires { length found.old ≡ places }
    ensures { Blank found.new }
{
    found.fill(0);
}

// The images of the call at record i of the procedure with the window callee; none where a region has two.
fn call_images(file: &[u8], own: &[u64], callee: &[u64], i: usize, found: &mut [usize; PLACES])
    requires call_here { CallHere file.now own.now callee.now i }
    requires found_len { length found.old ≡ places }
    ensures { CallImages file.now i found.new }
{
    clear(found);
    let arguments = word(file, i, format::CALL_ARGUMENTS);
    if map_call(file, own, callee, arguments, found) {
        return;
    }
    clear(found);
}

// The images of record i, if it is a call. Those of the last call before it, at record last, stand already. Returns which call's stand then.
fn next_images(
    file: &[u8],
    table: &[u64],
    owners: &[u16],
    last: usize,
    i: usize,
    found: &mut [usize; PLACES],
) -> usize
    requires given { Given file.now table.now owners.now }
    requires i_nonzero { (0 < i) × (i < record_count file.now) }
    requires last_call { LastCall file.now last found.old }
    ensures last_call_2 { LastCall file.now result found.new }
    ensures value { IsCall file.now i → result ≡ i }
{
    if word(file, i, format::KIND) != format::CALL {
        return last;
    }
    let own = start_of(table, owner_of(owners, i));
    if call_repeats(file, &table[own..], owners, last, i) {
        return i;
    }
    let callee = start_of(table, word(file, i, format::CALL_PROCEDURE));
    call_images(file, &table[own..], &table[callee..], i, found);
    i
}

// Copies the images of regions 1 to n behind place `at`.
fn copy_images(found: &[usize; PLACES], n: usize, at: usize, images: &mut [u8; IMAGES])
    requires n_lt_places { n < places }
    requires n_bound { at + n < image_bytes }
    requires by_index { (r : ℕ) → get_or found.now r 0 < places }
    ensures { images.new ≡ copied (λ r. get_or found.now r 0) n at images.old }
{
    for r in 1..=n {
        images[at + r] = found[r] as u8;
    }
}

// The images of all calls.
pub fn fill_images(file: &[u8], table: &[u64], owners: &[u16], images: &mut [u8; IMAGES])
    requires given { Given file.now table.now owners.now }
    requires regional { Regional images.old }
    ensures regional_2 { Regional images.new }
    ensures images_after { images.new ≡ picturing file.now (record_count file.now - 1) 1 images.old }
{
    let records = word(file, 0, format::HEADER_COUNT);
    let mut found = [0; PLACES];
    let mut last = 0;
    let mut at = 0;
    for i in 1..records {
        let n = image_count(file, table, i);
        last = next_images(file, table, owners, last, i, &mut found);
        copy_images(&found, n, at, images);
        at += n;
    }
}
