// The lines that the programs print, put into lent memory: each function answers the place behind what it put, and no other byte changes.
#![tactic(auto)]

mod answers;
mod numbers;
mod text;

pub use answers::{checker_output, put_ending, put_numbers, put_refusal, runner_output};
pub use numbers::{put_decimal, put_signed};
pub use text::put_text;

// The most bytes that texts take. The definitions have them under the same names (specs/Widths.antt).
// the line of a refusal, the longest of the checker's
pub const REFUSAL_BYTES: usize = 11;

// a number of 64 bits
pub const DECIMAL_BYTES: usize = 20;

// the line of a printed number: a sign, ten digits, a line feed
pub const NUMBER_BYTES: usize = 12;

// the line of an ending
pub const ENDING_BYTES: usize = 32;

// Words of 32 bits: those that are negative numbers, and how many there are.
const NEGATIVE_FROM: u32 = 2147483648;

const WORDS_END: u64 = 4294967296;
