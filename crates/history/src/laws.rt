// What is proved of whole lists of calls: each theorem is the contract of an empty function, so that the crate is refused without its proof.
ghost use Rattle.history.specs.Whole.{WholeHistory};

#[tactic(auto, using(crate::proofs::Proved::whole_history))]
pub fn whole_history()
    ensures { WholeHistory }
{}
