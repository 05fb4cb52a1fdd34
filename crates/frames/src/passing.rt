// The values that a call's arguments pass, along the links of the plan: from the call's record to its arguments of a mode, each to the next. Tried as one
// function for both ways, by a const bool parameter, whose proof doesn't close: the parameter doesn't compute in the goals.
ghost use Rattle.std.specs.Prelude.{◌≡◌, ◌+◌, ◌*◌, ◌≤◌, ◌<◌, length};
ghost use Rattle.language.specs.Format.{max_records};
ghost use Rattle.plans.specs.Plan.{ins_from, outs_from};
ghost use Rattle.word_machine.specs.Machine.{frame_words};
ghost use Rattle.frames.specs.Passing.{Links, passed_in, passed_out};

use crate::words::FRAME_WORDS;
use plans::{GIVEN_UNIT, IN_LINKS, LINK_UNIT, OUT_LINKS, PLAN};

// "A call adds the callee's frame with its in values": from the caller's frame at a place to the callee's behind it.
pub fn values_in(plan: &[usize; PLAN], i: usize, at: usize, frames: &mut [u32])
    requires links { Links plan.now ins_from }
    requires i_lt_max_records { (i < max_records) × (at + 2 * frame_words ≤ length frames.old) }
    ensures { frames.new ≡ passed_in plan.now i at frames.old }
{
    let mut a = i;
    let mut w = plan[IN_LINKS + a];
    loop {
        let n = w / LINK_UNIT;
        if n <= a {
            return;
        }
        w = plan[IN_LINKS + n];
        frames[at + FRAME_WORDS + w % GIVEN_UNIT] = frames[at + (w / GIVEN_UNIT) % GIVEN_UNIT];
        a = n;
    }
}

// "Its out values pass to the call's arguments": back to the caller's frame at a place.
pub fn values_out(plan: &[usize; PLAN], i: usize, at: usize, frames: &mut [u32])
    requires links { Links plan.now outs_from }
    requires i_lt_max_records { (i < max_records) × (at + 2 * frame_words ≤ length frames.old) }
    ensures { frames.new ≡ passed_out plan.now i at frames.old }
{
    let mut a = i;
    let mut w = plan[OUT_LINKS + a];
    loop {
        let n = w / LINK_UNIT;
        if n <= a {
            return;
        }
        w = plan[OUT_LINKS + n];
        frames[at + (w / GIVEN_UNIT) % GIVEN_UNIT] = frames[at + FRAME_WORDS + w % GIVEN_UNIT];
        a = n;
    }
}
