// Frames of 136 lent words: values and regions of a frame's numbers, what a call and a return copy, and words of numbers.
#![tactic(auto)]

mod arms;
mod clearing;
mod naming;
mod numbers;
mod passing;
mod words;

pub use arms::arm_of;
pub use clearing::clear;
pub use naming::{regions_in, regions_out};
pub use numbers::{in_range, less_words, literal_word, sum_of, word_of};
pub use passing::{values_in, values_out};
pub use words::{CALL_FROM, FRAME_WORDS, REGIONS_FROM, give, name_region, region, store, value};
