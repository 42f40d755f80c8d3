// What one month and price get on the terms of a check.
ghost use Rattle.std.specs.Prelude.{◌≡◌};
ghost use Rattle.record.specs.Check.{listed as listed_on};
ghost use Rattle.record.specs.Record.{order_answer};
ghost use Rattle.sheets.specs.Sheets.{entries_of};
ghost use Rattle.checking.specs.Checks.{checked_as};
ghost use Rattle.checking.specs.Terms.{view_terms};

use crate::terms::Terms;
use grain::{Refusal, Verdict};

impl Terms<'_> {
    // The settlement that a check takes: of the last ended day, of a month that is not before the open day's.
    fn listed(&self, month: u32) -> Option<u32>
        ensures { result ≡ listed_on self.now.date (entries_of self.now.last.now) month }
    {
        if month < self.date.month {
            return None;
        }
        self.last.find(month)
    }

    // 14, 8 or the answer, on any terms.
    #[tactic(auto, unfolding(record::specs::Check::order_tests, record::specs::Check::judged))]
    pub fn judged(&self, month: u32, price: u32) -> Result<Verdict, Refusal>
        ensures { checked_as result ≡ order_answer (view_terms self.now) month price }
    {
        // The settlement, or else refusal 14: the look-up has both of its conditions.
        let Some(settlement) = self.listed(month) else {
            return Err(Refusal::NotListed);
        };
        if !grain::is_on_tick(self.tick, price) {
            return Err(Refusal::BadPrice);
        }
        let spot = self.date.is_spot(month);
        Ok(grain::judge(spot, self.tick, settlement, self.limit, price))
    }
}
