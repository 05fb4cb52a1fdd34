// Numbers in decimal.
ghost use Rattle.std.specs.Prelude.{◌+◌, ◌<◌, ◌≤◌, ◌≡◌, length};
ghost use Rattle.std.specs.Int.{w32};
ghost use Rattle.std.proofs.Common.{to_z};
ghost use Rattle.language.specs.Output.{decimal, signed_decimal};
ghost use Rattle.lines.specs.Put.{Put};
ghost use Rattle.lines.specs.Digits.{digits};

use crate::{NEGATIVE_FROM, WORDS_END};

pub fn put_decimal(out: &mut [u8], at: usize, n: u64) -> usize
    requires { at + length (decimal n) ≤ length out.old }
    ensures { Put out.old at (decimal n) out.new result }
{
    if n == 0 {
        out[at] = b'0';
        return at + 1;
    }
    put_digits(out, at, n)
}

// A word of 32 bits, read as a signed number.
pub fn put_signed(out: &mut [u8], at: usize, word: u32) -> usize
    requires { at + length (signed_decimal (to_z w32 word)) ≤ length out.old }
    ensures { Put out.old at (signed_decimal (to_z w32 word)) out.new result }
{
    if word < NEGATIVE_FROM {
        return put_decimal(out, at, u64::from(word));
    }
    out[at] = b'-';
    put_decimal(out, at + 1, WORDS_END - u64::from(word))
}

// The digits of n, none for 0.
fn put_digits(out: &mut [u8], at: usize, n: u64) -> usize
    requires { at + length (digits n) ≤ length out.old }
    ensures { Put out.old at (digits n) out.new result }
{
    if n == 0 {
        return at;
    }
    let last = put_digits(out, at, n / 10);
    out[last] = digit(n % 10);
    last + 1
}

fn digit(d: u64) -> u8
    requires { d < 10 }
    ensures { result ≡ 48 + d }
{
    b'0' + d as u8
}
