// A site sheet before its words: how long it is, its head and its card, and what they say to its reader.
#![tactic(auto)]

mod front;
mod size;

pub use front::{card_in, front_number, head_fits};
pub use size::sheet_size;
