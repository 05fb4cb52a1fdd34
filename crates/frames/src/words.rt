// Words of a frame, by the numbers of variables and regions. Every number that a file past number 3 has is that of a word of the frame.
ghost use Rattle.std.specs.Prelude.{◌≡◌, ◌+◌, ◌≤◌, ◌<◌, length, get_or, set};
ghost use Rattle.language.specs.Format.{max_variables, max_regions};
ghost use Rattle.word_machine.specs.Machine.{frame_words, regions_from};

use language::format::{MAX_REGIONS, MAX_VARIABLES};

// "136 a frame": its next goal's record, 64 values, the places of what 64 region numbers stand for, the call's record.
pub const FRAME_WORDS: usize = 136;

// The words before the first region's, less one since regions count from 1.
pub const REGIONS_FROM: usize = MAX_VARIABLES;

// The word that has the record of the call that made the frame.
pub const CALL_FROM: usize = REGIONS_FROM + MAX_REGIONS + 1;

// The value of variable x of the frame at a place.
pub fn value(frames: &[u32], at: usize, x: usize) -> u32
    requires { (x ≤ max_variables) × (at + frame_words ≤ length frames.now) }
    ensures { result ≡ get_or frames.now (at + x) 0 }
{
    frames[at + x]
}

// Variable x of a frame gets a value.
pub fn give(frames: &mut [u32], at: usize, x: usize, value: u32)
    requires { (x ≤ max_variables) × (at + frame_words ≤ length frames.old) }
    ensures { frames.new ≡ set frames.old (at + x) value }
{
    frames[at + x] = value;
}

// The place of what a frame's region number r stands for.
pub fn region(frames: &[u32], at: usize, r: usize) -> u32
    requires { (r ≤ max_regions) × (at + frame_words ≤ length frames.now) }
    ensures { result ≡ get_or frames.now (at + regions_from + r) 0 }
{
    frames[at + REGIONS_FROM + r]
}

// Region number r of a frame stands for what is at a place.
pub fn name_region(frames: &mut [u32], at: usize, r: usize, place: u32)
    requires { (r ≤ max_regions) × (at + frame_words ≤ length frames.old) }
    ensures { frames.new ≡ set frames.old (at + regions_from + r) place }
{
    frames[at + REGIONS_FROM + r] = place;
}

// A store where there is a word.
pub fn store(mem: &mut [u32], at: usize, value: u32)
    requires { at < length mem.old }
    ensures { mem.new ≡ set mem.old at value }
{
    mem[at] = value;
}
