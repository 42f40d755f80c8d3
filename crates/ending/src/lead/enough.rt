// Whether a product has two moves of exactly I within its first N, or one of its last crop-year month, which counts as two.
ghost use Rattle.std.specs.Prelude.{◌≡◌};
ghost use Rattle.sheets.specs.Sheets.{entries_of};
ghost use Rattle.ending.specs.Search.{count_of, are_enough_in};

use crate::moves::ProductMoves;
use record::Contract;

impl ProductMoves<'_> {
    // What a contract counts, if it is within the first N: 0 where it did not move by exactly I.
    #[tactic(auto, unfolding(crate::specs::Search::count_of))]
    fn count_of(&self, contract: &Contract) -> u32
        ensures { result ≡ count_of self.now.product self.now.limit.initial (entries_of self.now.last.now) contract.now }
    {
        let change = self.last.change_to(contract.month, contract.settlement);
        if change != Some(self.limit.initial) {
            return 0;
        }
        if grain::is_last_crop_month(self.product, contract.month) {
            return 2;
        }
        1
    }

    pub(crate) fn are_enough(&self) -> bool
        ensures { result ≡ are_enough_in self.now.date self.now.product self.now.limit (entries_of self.now.today.now) (entries_of self.now.last.now) }
    {
        let first = grain::first_contracts(self.product) as usize;
        let count: u32 = self
            .today
            .entries()
            .iter()
            .filter(|c| !self.date.is_spot(c.month))
            .take(first)
            .map(|c| self.count_of(c))
            .sum();
        2 <= count
    }
}
