// What stands around an inner face, gathered from ground, state and tide: its levels, four numbers, or all eighteen.
#![tactic(auto)]

pub mod faces;
pub mod flow;
pub mod levels;
mod words;
