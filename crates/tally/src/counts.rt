// The counts of a tally: whether it takes one more check, and one more check.
ghost use Rattle.std.specs.Prelude.{◌≡◌, ◌≢◌};
ghost use Rattle.std.specs.Option.{option_map};
ghost use Rattle.grain.specs.Refusals.{number_of};
ghost use Rattle.tally.specs.Tally.{sum_of, tally_refusal, one_more, counted};

use crate::{Kind, Tally};
use grain::Refusal;

impl Tally {
    // Five counts of 32 bits each: in 64 bits their sum does not wrap.
    fn sum(&self) -> u64
        ensures { result ≡ sum_of self.now }
    {
        let allowed = (self.free as u64) + (self.within as u64);
        let beyond = (self.below as u64) + (self.above as u64);
        allowed + beyond + (self.refused as u64)
    }

    // Why it refuses every check, where it does.
    pub fn refusal(&self) -> Option<Refusal>
        ensures { option_map number_of result ≡ tally_refusal self.now }
    {
        let asked = self.asked as u64;
        if asked != self.sum() {
            return Some(Refusal::Unsound);
        }
        if self.asked == u32::MAX {
            return Some(Refusal::TallyFull);
        }
        None
    }

    // The one place that counts: asked and the kind together, so that asked stays the sum.
    fn count_one(&mut self, kind: Kind)
        requires sound { self.old.asked ≡ sum_of self.old }
        requires room { self.old.asked ≢ u32.MAX }
        ensures { self.new ≡ one_more self.old kind }
    {
        self.asked += 1;
        match kind {
            Kind::Free => self.free += 1,
            Kind::Within => self.within += 1,
            Kind::Below => self.below += 1,
            Kind::Above => self.above += 1,
            Kind::Refused => self.refused += 1,
        }
    }

    // One more asked and one more of the kind. A tally that refuses stays as it is.
    pub fn count(&mut self, kind: Kind)
        ensures { self.new ≡ counted self.old kind }
    {
        if self.refusal().is_none() {
            self.count_one(kind);
        }
    }
}
