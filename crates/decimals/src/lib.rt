// A word as a number: digits alone, and a decimal, whose size in micrometres is exact. Nothing is rounded: a word with a seventh place is no decimal.
#![tactic(auto)]

mod counts;
mod signs;
mod sizes;

pub use counts::count_in;
pub use signs::{Decimal, NoDecimal, decimal_in, is_minus};
