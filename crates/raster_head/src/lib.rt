// The words in front of a raster's values: its keys, in their order and in any letter case, each with its value.
#![tactic(auto)]

mod fields;
mod head;
mod keys;

pub use head::{Head, head_in};
