// The second half of a step, the balance of momentum: the new velocities.
#![tactic(auto)]

mod inner;
pub mod passes;
