// What the calls on the pin table answer. What it means, and every definition that a contract of the pin table cites, stands in specs/.
#![tactic(auto)]

mod refusals;

pub use refusals::PinRefusal;

// What a listing of pins answers. Across C: a refusal is its number, with 0 for the count.
#[repr(C)]
#[derive(Clone, Copy, Debug, PartialEq, Eq)]
pub struct Listing {
    pub number: u32,
    pub count: u32,
}
