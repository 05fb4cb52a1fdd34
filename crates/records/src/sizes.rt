// What bytes, words and kinds' numbers are below, how many words a record has, and what the digits of the record table are below. The contracts
// have them under the same names (specs/Sizes.antt).
pub const BYTE_END: usize = 256;

pub const WORD_END: usize = 65536;

pub const RECORD_WORDS: usize = 8;

pub const KINDS_END: usize = 22;

pub const DIGIT_END: usize = 16;
