// What the runner program lends: "1,024 cells, 1,024 regions, 100 frames, 1,024 prints, 1,000,000 steps"; 8, 2, 136 words and 1 each.
ghost use Rattle.std.specs.Prelude.{◌≡◌, length};
ghost use Rattle.running.specs.Lent.{cells_lent, regions_lent, frames_lent, prints_lent};

pub const CELLS: usize = 8192;

pub const REGIONS: usize = 2048;

pub const FRAMES: usize = 13600;

pub const PRINTS: usize = 1024;

pub const STEPS: usize = 1000000;

pub fn cell_words() -> [u32; CELLS]
    ensures { cells_lent ≡ length result }
{
    [0; CELLS]
}

pub fn region_words() -> [u32; REGIONS]
    ensures { regions_lent ≡ length result }
{
    [0; REGIONS]
}

pub fn frame_words() -> [u32; FRAMES]
    ensures { frames_lent ≡ length result }
{
    [0; FRAMES]
}

pub fn print_words() -> [u32; PRINTS]
    ensures { prints_lent ≡ length result }
{
    [0; PRINTS]
}
