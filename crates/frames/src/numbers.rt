// Whole numbers of 32 bits, signed, kept as words.
ghost use Rattle.std.specs.Prelude.{◌≡◌, true, ◌<◌};
ghost use Rattle.std.specs.Int.{w32};
ghost use Rattle.std.proofs.Common.{to_z};
ghost use Rattle.language.specs.Numbers.{literal_number, residue, in_range, less};
ghost use Rattle.records.specs.Sizes.{word_end};
ghost use Rattle.word_machine.specs.Machine.{literal_word, sum_of_words};

// A literal from here on is negative, and the last one is -1.
const NEGATIVE_LITERALS: u32 = 32768;

const LAST_LITERAL: u32 = 65535;

// A word from here on is negative, and the last one is -1.
const NEGATIVE_FROM: u32 = 2147483648;

const LAST_WORD: u32 = 4294967295;

// "−2,147,483,648 to 2,147,483,647".
const LEAST: i64 = -2147483648;

const GREATEST: i64 = 2147483647;

// How many words there are.
const WORDS: i64 = 4294967296;

// "A literal's 16 bits are read as two's complement."
fn literal_number(v: u32) -> i32
    requires { v < word_end }
    ensures { result ≡ literal_number v }
{
    if v < NEGATIVE_LITERALS {
        v as i32
    } else {
        -1 - ((LAST_LITERAL - v) as i32)
    }
}

pub fn literal_word(v: u32) -> u32
    requires { v < word_end }
    ensures { result ≡ literal_word v }
{
    word_of(literal_number(v) as i64)
}

// The sum or difference of two words' numbers, in full.
pub fn sum_of(operation: usize, a: u32, b: u32) -> i64
    ensures { result ≡ sum_of_words operation a b }
{
    let y = signed(a) as i64;
    let z = signed(b) as i64;
    if operation == 0 { y + z } else { y - z }
}

// "A sum or difference outside .. now stops the run": whether it is not outside.
pub fn in_range(sum: i64) -> bool
    ensures { result ≡ in_range sum }
{
    LEAST <= sum && sum <= GREATEST
}

// The word of a number in range.
pub fn word_of(sum: i64) -> u32
    requires { in_range sum ≡ true }
    ensures { result ≡ residue sum }
{
    if 0 <= sum {
        sum as u32
    } else {
        (sum + WORDS) as u32
    }
}

fn signed(x: u32) -> i32
    ensures { result ≡ to_z w32 x }
{
    if x < NEGATIVE_FROM {
        x as i32
    } else {
        -1 - ((LAST_WORD - x) as i32)
    }
}

// "if Y < Z", signed.
pub fn less_words(a: u32, b: u32) -> bool
    ensures { result ≡ less (to_z w32 a) (to_z w32 b) }
{
    signed(a) < signed(b)
}
