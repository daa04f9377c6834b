// The look over a raster's text that decides: its refusal, or what its keys say. Nothing is written.
#![tactic(auto)]

mod decisions;
mod product;
mod values;

pub use decisions::{Decision, decide};
