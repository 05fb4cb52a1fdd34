// Number 2's rule on conditions: "Conditions hold no call, print, if or try; tests stand only in conditions".
#![tactic(auto)]

mod pass;

pub use pass::conditions_ok;
