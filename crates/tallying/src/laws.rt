// What is proved of checks on books through one tally: the theorem is the contract of an empty function, so that the crate is refused without its proof.
ghost use Rattle.tallying.specs.Through.{BooksThroughOneTally};

#[tactic(auto, using(crate::proofs::Proved::books_through_one_tally))]
pub fn books_through_one_tally()
    ensures { BooksThroughOneTally }
{}
