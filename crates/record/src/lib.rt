// What the Record and a book both speak of. The Record itself is definitions and theorems: specs/ and proofs/.
#![tactic(auto)]

mod laws;

pub use laws::{marked_numbers, theorems};

// A date with its left: the business days of its month after it.
#[repr(C)]
#[derive(Clone, Copy, Debug, Default, PartialEq, Eq)]
pub struct Day {
    pub year: u32,
    pub month: u32,
    pub day: u32,
    pub left: u32,
}

// How many contracts a sheet can have.
pub const MAX_CONTRACTS: usize = 16;

#[repr(C)]
#[derive(Clone, Copy, Debug, Default, PartialEq, Eq)]
pub struct Contract {
    pub month: u32,
    pub settlement: u32,
}

// The leading contract of an event.
#[derive(Clone, Copy, Debug, PartialEq, Eq)]
pub struct Lead {
    pub month: u32,
    pub product: u32,
}

// What the end of a day is for a group.
#[derive(Clone, Copy, Debug, PartialEq, Eq)]
pub enum Event {
    Quiet,
    Triggered(Lead),
    Held(Lead),
    Reverted,
    Raised(Lead),
}

// How many groups the products form.
pub const GROUP_COUNT: usize = 5;
