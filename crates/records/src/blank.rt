// The memory that a program reads a file into.
ghost use Rattle.std.specs.Prelude.{◌≡◌, replicate};
ghost use Rattle.records.specs.Blank.{input_bytes};

use language::format::MAX_BYTES;

// The longest file and one byte, so that a longer one is told.
pub const INPUT_BYTES: usize = MAX_BYTES + 1;

pub fn blank_input() -> [u8; INPUT_BYTES]
    ensures { result ≡ replicate input_bytes 0 }
{
    [0; INPUT_BYTES]
}
