// Number 8: the checker's rules along each path; and the checker's answer to any bytes.
#![tactic(auto)]

mod answer;
mod carried;
mod procedures;
mod sound;
mod step;
mod walk;

pub use answer::check;
pub use procedures::rules_ok;
