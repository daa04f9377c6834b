// The first half of a step, the balance of water: the look at the step limit, and the new heights from what crossed the faces.
#![tactic(auto)]

pub mod look;
pub mod tide;
