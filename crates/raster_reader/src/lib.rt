// The raster reader. The look over the text decides; only then are the values read again, where they stand, into the lent list.
#![tactic(auto)]

mod fills;
mod reader;

pub use reader::read_raster;
