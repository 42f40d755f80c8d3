// A gateway's tally: six counts of the checks through it, lent by &mut. It knows no book.
#![tactic(auto)]

mod counts;
mod kinds;
mod through;

pub use kinds::Kind;

#[repr(C)]
#[derive(Clone, Copy, Debug, Default, PartialEq, Eq)]
pub struct Tally {
    // The number of checks; the sum of the other five.
    pub asked: u32,
    pub free: u32,
    pub within: u32,
    pub below: u32,
    pub above: u32,
    pub refused: u32,
}
