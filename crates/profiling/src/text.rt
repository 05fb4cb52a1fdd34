// A line of the profile, put into lent memory: "STEP CELLS REGIONS FRAMES RECORD".
ghost use Rattle.std.specs.Prelude.{◌+◌, ◌≤◌, length};
ghost use Rattle.language.specs.Output.{decimal, line};
ghost use Rattle.lines.specs.Put.{Put};
ghost use Rattle.profiling.specs.Statement.{spaced, line_text};
ghost use Rattle.profiling.specs.Text.{number_bytes, line_bytes};

use crate::Line;
use lines::{DECIMAL_BYTES, put_decimal, put_text};

// The most bytes that a number of 64 bits takes with a byte behind it; a line has five of them. The definitions have them under the same names
// (specs/Text.antt).
const NUMBER_BYTES: usize = DECIMAL_BYTES + 1;

pub const LINE_BYTES: usize = 5 * NUMBER_BYTES;

// A number and a space.
fn put_spaced(out: &mut [u8], at: usize, n: u64) -> usize
    requires { at + number_bytes ≤ length out.old }
    ensures put { Put out.old at (spaced n) out.new result }
    ensures upper_bound { result ≤ at + number_bytes }
{
    let end = put_decimal(out, at, n);
    put_text(out, end, b" ")
}

// The last number of a line.
fn put_last(out: &mut [u8], at: usize, n: u64) -> usize
    requires { at + number_bytes ≤ length out.old }
    ensures put { Put out.old at (line (decimal n)) out.new result }
    ensures upper_bound { result ≤ at + number_bytes }
{
    let end = put_decimal(out, at, n);
    put_text(out, end, b"\n")
}

pub fn put_line(out: &mut [u8], at: usize, l: Line) -> usize
    requires { at + line_bytes ≤ length out.old }
    ensures put { Put out.old at (line_text l) out.new result }
    ensures upper_bound { result ≤ at + line_bytes }
{
    let held = l.held;
    let cells = put_spaced(out, at, l.step);
    let regions = put_spaced(out, cells, held.cells);
    let frames = put_spaced(out, regions, held.regions);
    let goal = put_spaced(out, frames, held.frames);
    put_last(out, goal, l.goal)
}
