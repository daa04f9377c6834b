// The layout of a state: the two ways that faces point, its words by column and row, and the numbers of a cell.
#![tactic(auto)]

pub mod cells;
pub mod ways;
pub mod words;
