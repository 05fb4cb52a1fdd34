// What a callee's regions stand for, at a call and at a return. `images` has the caller's region for region r of the callee at place side + r.
// Both loops take the least member off by hand: `for r in rs.members()` knows the members still to come before its body, which wants a register more of a
// run's loop, for 0.6 to 1.4 in 100 more instructions a step on every job. The two are one loop both ways; tried as one function by a const bool parameter,
// whose proof doesn't close: the parameter doesn't compute in the goals.
ghost use Rattle.std.specs.Prelude.{◌≡◌, ◌+◌, ◌*◌, ◌≤◌, ◌<◌, length, get_or};
ghost use Rattle.sets.specs.Members.{members};
ghost use Rattle.word_machine.specs.Machine.{frame_words};
ghost use Rattle.frames.specs.Naming.{Pictured, named_in, named_out};

use crate::words::{FRAME_WORDS, name_region, region};
use sets::Set;

// The caller's region for region r.
fn image_of(images: &[u8], side: usize, r: usize) -> usize
    requires { side + r < length images.now }
    ensures { result ≡ get_or images.now (side + r) 0 }
{
    usize::from(images[side + r])
}

// "A callee's dead and kept numbers stand for what their images do": the caller's frame is at a place, the callee's behind it.
pub fn regions_in(rs: Set, images: &[u8], side: usize, at: usize, frames: &mut [u32])
    requires { Pictured images.now side × (at + 2 * frame_words ≤ length frames.old) }
    ensures { frames.new ≡ named_in images.now side at (members rs) frames.old }
{
    let mut left = rs;
    while !left.is_empty() {
        let r = left.lowest();
        let image = image_of(images, side, r);
        let place = region(&frames[..], at, image);
        name_region(&mut frames[..], at + FRAME_WORDS, r, place);
        left = left.without_lowest();
    }
}

// "When its frame goes, the images of born ones stand for what those did."
pub fn regions_out(rs: Set, images: &[u8], side: usize, at: usize, frames: &mut [u32])
    requires { Pictured images.now side × (at + 2 * frame_words ≤ length frames.old) }
    ensures { frames.new ≡ named_out images.now side at (members rs) frames.old }
{
    let mut left = rs;
    while !left.is_empty() {
        let r = left.lowest();
        let image = image_of(images, side, r);
        let place = region(&frames[..], at + FRAME_WORDS, r);
        name_region(&mut frames[..], at, image, place);
        left = left.without_lowest();
    }
}
