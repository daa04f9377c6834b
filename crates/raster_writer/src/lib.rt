// The raster writer. It checks all that it is given, adds up how long the text is, looks for 8 last, and only then lays the text.
#![tactic(auto)]

mod heads;
mod lines;
mod metres;
mod sums;
mod writer;

pub use writer::write_raster;
