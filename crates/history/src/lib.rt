// Whole lists of calls on a book: what makes a call and a list of them, and the theorem over all lists. specs/ states it, proofs/ has the proof.
#![tactic(auto)]

mod calls;
mod laws;

pub use calls::{Call, Filing, Order, Reply, respond, run};
pub use laws::whole_history;
