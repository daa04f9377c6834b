// The sheet reader. It looks for 9 first, then 1, 2 and 3. The values are looked at where they stand in the sheet's bytes, and only then are the lent lists filled.
#![tactic(auto)]

mod look;
mod own;
mod reader;
mod row;

pub use own::own_number;
pub use reader::{no_card, read_sheet};
