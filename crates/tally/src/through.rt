// A check's answer through a tally, whatever was checked.
ghost use Rattle.std.specs.Prelude.{◌≡◌, MatchOption};
ghost use Rattle.tally.specs.Tally.{kind_of, tally_refusal, counted, IsRefusedWith};

use crate::Tally;
use grain::{Refusal, Verdict};

impl Tally {
    // The tally's own refusals come before the answer, and leave the tally as it is.
    #[tactic(auto, unfolding(crate::specs::Tally::counted))]
    pub fn through(&mut self, answer: Result<Verdict, Refusal>) -> Result<Verdict, Refusal>
        ensures answered { MatchOption (tally_refusal self.old) (result ≡ answer) (λ n. IsRefusedWith n result) }
        ensures counted { self.new ≡ counted self.old (kind_of answer) }
    {
        if let Some(refusal) = self.refusal() {
            return Err(refusal);
        }
        self.count(answer.into());
        answer
    }
}
