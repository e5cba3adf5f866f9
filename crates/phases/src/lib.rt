// What `check` of profile.rs is made of, over the numbers of a profile in one row: the phase times and their sums, one
// phase, and all seven.
#![tactic(auto)]

pub mod nodes;
mod phase;
pub mod replacing;
pub mod times;
