// The answers of the programs.
ghost use Rattle.std.specs.Prelude.{◌+◌, ◌*◌, ◌≤◌, ◌++◌, map, ◌≡◌, length};
ghost use Rattle.std.specs.Int.{w32};
ghost use Rattle.std.proofs.Common.{to_z};
ghost use Rattle.language.specs.declared.Ending.TheVariants.{Stopped};
ghost use Rattle.language.specs.Output.{decimal, signed_decimal, line, number_lines, refusal_line, checker_output, ending_line};
ghost use Rattle.lines.specs.Widths.{refusal_bytes, number_bytes, ending_bytes};
ghost use Rattle.lines.specs.Put.{Put, Front};

use crate::REFUSAL_BYTES;
use crate::numbers::{put_decimal, put_signed};
use crate::text::put_text;
use language::{Ending, Refusal, Stop};

// No `Display`: these write into lent memory and promise each byte and the place behind it, of which `fmt` says nothing.

// A line of a word and a number.
fn put_line(out: &mut [u8], at: usize, word: &[u8], n: u64) -> usize
    requires { at + (length word.now + (length (decimal n) + 1)) ≤ length out.old }
    ensures { Put out.old at (line (word.now ++ decimal n)) out.new result }
{
    let number = put_text(out, at, word);
    let end = put_decimal(out, number, n);
    put_text(out, end, b"\n")
}

// The line of a refusal.
pub fn put_refusal(out: &mut [u8], at: usize, r: Refusal) -> usize
    requires { at + refusal_bytes ≤ length out.old }
    ensures { Put out.old at (refusal_line r) out.new result }
{
    put_line(out, at, b"refused ", u64::from(r))
}

// All that the checker prints, at the front of `out`. Answers how many bytes that are.
pub fn checker_output(answer: Result<(), Refusal>, out: &mut [u8; REFUSAL_BYTES]) -> usize
    ensures { Front (checker_output answer) out.old out.new result }
{
    match answer {
        Ok(()) => put_text(out, 0, b"accepted\n"),
        Err(r) => put_refusal(out, 0, r),
    }
}

// The last line of the runner.
pub fn put_ending(out: &mut [u8], at: usize, ending: Ending, steps: u64) -> usize
    requires { at + ending_bytes ≤ length out.old }
    ensures { Put out.old at (ending_line ending steps) out.new result }
{
    match ending {
        Ending::Refused(r) => put_refusal(out, at, r),
        Ending::Finished => put_line(out, at, b"finished ", steps),
        Ending::Stopped(c) => put_stop(out, at, c, steps),
    }
}

fn put_stop(out: &mut [u8], at: usize, c: Stop, steps: u64) -> usize
    requires { at + ending_bytes ≤ length out.old }
    ensures { Put out.old at (ending_line (Stopped c) steps) out.new result }
{
    let number = put_text(out, at, b"stopped ");
    let space = put_decimal(out, number, u64::from(c));
    put_line(out, space, b" ", steps)
}

// The numbers that a run printed, a line each.
pub fn put_numbers(out: &mut [u8], at: usize, words: &[u32]) -> usize
    requires { at + number_bytes * length words.now ≤ length out.old }
    ensures put { Put out.old at (number_lines (map (to_z w32) words.now)) out.new result }
    ensures upper_bound { result ≤ at + number_bytes * length words.now }
{
    let mut end = at;
    for word in words {
        end = put_number(out, end, *word);
    }
    end
}

fn put_number(out: &mut [u8], at: usize, word: u32) -> usize
    requires { at + number_bytes ≤ length out.old }
    ensures put { Put out.old at (line (signed_decimal (to_z w32 word))) out.new result }
    ensures upper_bound { result ≤ at + number_bytes }
{
    let end = put_signed(out, at, word);
    put_text(out, end, b"\n")
}

// All that the runner prints, at the front of `out`: the numbers printed, then how the run ended. Answers how many bytes that are.
pub fn runner_output(words: &[u32], ending: Ending, steps: u64, out: &mut [u8]) -> usize
    requires { number_bytes * length words.now + ending_bytes ≤ length out.old }
    ensures { Front (number_lines (map (to_z w32) words.now) ++ ending_line ending steps) out.old out.new result }
{
    let end = put_numbers(out, 0, words);
    put_ending(out, end, ending, steps)
}
