// What is proved of the Record: each theorem is the contract of an empty function, so that the crate is refused without its proof.
ghost use Rattle.record.specs.Theorems.{Theorems};
ghost use Rattle.record.specs.Marked.{Marked};

#[tactic(auto, using(crate::proofs::Proved::theorems))]
pub fn theorems()
    ensures { Theorems }
{}

// The rule's marked numbers (a) to (n), one table.
#[tactic(auto, using(crate::proofs::Marked::marked))]
pub fn marked_numbers()
    ensures { Marked }
{}
