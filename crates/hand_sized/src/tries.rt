// Hand-sized files with a try (C-20), about the code: one whose test fails, one whose removal waits for a place of its own, one whose condition ends with it.
ghost use Rattle.std.specs.Prelude.{◌≡◌};
ghost use Rattle.language.specs.declared.Stop.TheVariants.{Places};
ghost use Rattle.language.specs.declared.Ending.TheVariants.{Finished, Stopped};
ghost use Rattle.language.specs.Answers.{stop_number};
ghost use Rattle.language.specs.Conditional.{numbers_come_back, remove_create_in_condition, remove_at_condition_end_then_create};
ghost use Rattle.running.specs.Answer.{Free};
ghost use Rattle.hand_sized.specs.Joined.{quiet};

use machine::Outcome;
use running::lent::{CELLS, FRAMES, PRINTS, REGIONS, STEPS};
use running::run;

const COMES_BACK: [u8; 256] = *b"\x01\0\x04\0\x01\0\x10\0\0\0\0\0\0\0\0\0\
    \x02\0\0\0\x02\0\0\0\0\0\0\0\0\0\0\0\
    \x03\0\x03\0\0\0\0\0\0\0\0\0\0\0\0\0\
    \x03\0\0\0\x01\0\0\0\0\0\0\0\0\0\0\0\
    \x04\0\0\0\x05\0\x07\0\x08\0\0\0\0\0\0\0\
    \x05\0\x06\0\0\0\x01\0\x01\0\0\0\0\0\0\0\
    \x05\0\0\0\0\0\0\0\0\0\0\0\0\0\0\0\
    \x06\0\0\0\x01\0\0\0\0\0\0\0\0\0\0\0\
    \x08\0\x09\0\x02\0\x05\0\0\0\0\0\0\0\0\0\
    \x12\0\x0a\0\x01\0\0\0\0\0\0\0\0\0\0\0\
    \x14\0\x0e\0\x0b\0\0\0\0\0\0\0\0\0\0\0\
    \x13\0\x0c\0\x01\0\0\0\0\0\0\0\0\0\0\0\
    \x12\0\x0d\0\x01\0\0\0\0\0\0\0\0\0\0\0\
    \x15\0\0\0\x02\0\x02\0\0\0\0\0\0\0\0\0\
    \x0b\0\x0f\0\x01\0\x01\0\x02\0\0\0\0\0\0\0\
    \x13\0\0\0\x01\0\0\0\0\0\0\0\0\0\0\0";

const WAITS: [u8; 208] = *b"\x01\0\x04\0\x01\0\x0d\0\0\0\0\0\0\0\0\0\
    \x02\0\0\0\x02\0\0\0\0\0\0\0\0\0\0\0\
    \x03\0\x03\0\0\0\0\0\0\0\0\0\0\0\0\0\
    \x03\0\0\0\x01\0\0\0\0\0\0\0\0\0\0\0\
    \x04\0\0\0\0\0\x05\0\x07\0\0\0\0\0\0\0\
    \x06\0\x06\0\x01\0\0\0\0\0\0\0\0\0\0\0\
    \x06\0\0\0\x01\0\0\0\0\0\0\0\0\0\0\0\
    \x12\0\x08\0\x01\0\0\0\0\0\0\0\0\0\0\0\
    \x14\0\0\0\x09\0\x0b\0\x0c\0\0\0\0\0\0\0\
    \x13\0\x0a\0\x01\0\0\0\0\0\0\0\0\0\0\0\
    \x12\0\0\0\x02\0\0\0\0\0\0\0\0\0\0\0\
    \x13\0\0\0\x02\0\0\0\0\0\0\0\0\0\0\0\
    \x13\0\0\0\x01\0\0\0\0\0\0\0\0\0\0\0";

const AT_THE_END: [u8; 208] = *b"\x01\0\x04\0\x01\0\x0d\0\0\0\0\0\0\0\0\0\
    \x02\0\0\0\x02\0\0\0\0\0\0\0\0\0\0\0\
    \x03\0\x03\0\0\0\0\0\0\0\0\0\0\0\0\0\
    \x03\0\0\0\x01\0\0\0\0\0\0\0\0\0\0\0\
    \x04\0\0\0\0\0\x05\0\x07\0\0\0\0\0\0\0\
    \x06\0\x06\0\x01\0\0\0\0\0\0\0\0\0\0\0\
    \x06\0\0\0\x01\0\0\0\0\0\0\0\0\0\0\0\
    \x12\0\x08\0\x01\0\0\0\0\0\0\0\0\0\0\0\
    \x14\0\0\0\x09\0\x0a\0\x0c\0\0\0\0\0\0\0\
    \x13\0\0\0\x01\0\0\0\0\0\0\0\0\0\0\0\
    \x12\0\x0b\0\x02\0\0\0\0\0\0\0\0\0\0\0\
    \x13\0\0\0\x02\0\0\0\0\0\0\0\0\0\0\0\
    \x13\0\0\0\x01\0\0\0\0\0\0\0\0\0\0\0";

fn comes_back() -> [u8; 256]
    ensures { result ≡ numbers_come_back }
{
    COMES_BACK
}

fn waits() -> [u8; 208]
    ensures { result ≡ remove_create_in_condition }
{
    WAITS
}

fn at_the_end() -> [u8; 208]
    ensures { result ≡ remove_at_condition_end_then_create }
{
    AT_THE_END
}

// A region number removed and created again in a condition that fails: what is built behind it stands in the old region.
pub fn run_comes_back(
    cells: &mut [u32; CELLS],
    regions: &mut [u32; REGIONS],
    frames: &mut [u32; FRAMES],
    prints: &mut [u32; PRINTS],
) -> Outcome
    ensures value { result ≡ quiet Finished 8 }
    ensures prints_unchanged { prints.new ≡ prints.old }
    ensures free { Free cells.old regions.old frames.old cells.new regions.new frames.new }
{
    run(&comes_back(), cells, regions, frames, prints, STEPS)
}

// A removal that waits, one place short: 12.
pub fn run_waits_in_one_place(
    cells: &mut [u32; CELLS],
    regions: &mut [u32; 2],
    frames: &mut [u32; FRAMES],
    prints: &mut [u32; PRINTS],
) -> Outcome
    ensures value { result ≡ quiet (Stopped Places) 3 }
    ensures stop_number_value { stop_number Places ≡ 12 }
    ensures prints_unchanged { prints.new ≡ prints.old }
    ensures free { Free cells.old regions.old frames.old cells.new regions.new frames.new }
{
    run(&waits(), cells, regions, frames, prints, STEPS)
}

// .. with a place more.
pub fn run_waits_in_two_places(
    cells: &mut [u32; CELLS],
    regions: &mut [u32; 4],
    frames: &mut [u32; FRAMES],
    prints: &mut [u32; PRINTS],
) -> Outcome
    ensures value { result ≡ quiet Finished 5 }
    ensures prints_unchanged { prints.new ≡ prints.old }
    ensures free { Free cells.old regions.old frames.old cells.new regions.new frames.new }
{
    run(&waits(), cells, regions, frames, prints, STEPS)
}

// A removal that a condition ends with frees its place before the then part begins.
pub fn run_at_the_end_in_one_place(
    cells: &mut [u32; CELLS],
    regions: &mut [u32; 2],
    frames: &mut [u32; FRAMES],
    prints: &mut [u32; PRINTS],
) -> Outcome
    ensures value { result ≡ quiet Finished 5 }
    ensures prints_unchanged { prints.new ≡ prints.old }
    ensures free { Free cells.old regions.old frames.old cells.new regions.new frames.new }
{
    run(&at_the_end(), cells, regions, frames, prints, STEPS)
}
