// Number 4: which variables have a value, on every path and on some path.
#![tactic(auto)]

mod carried;
mod declared;
mod stage;
mod walk;

pub use stage::values_ok;
