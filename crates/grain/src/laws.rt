// What is proved of amounts and of spans: each theorem is the contract of an empty function, so that the crate is refused without its proof.
ghost use Rattle.grain.specs.Rounding.{StepRounding};
ghost use Rattle.grain.specs.Spans.{EverySpan};

#[tactic(auto, using(crate::proofs::Rounded::step_rounding))]
pub fn step_rounding()
    ensures { StepRounding }
{}

pub fn every_span()
    ensures { EverySpan }
{}
