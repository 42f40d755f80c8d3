// What a move has to be for an event, and whether a product's contract of a month moved so.
ghost use Rattle.std.specs.Prelude.{◌≡◌, ◌&&◌, ltb, eqb};
ghost use Rattle.grain.specs.Products.{first_of};
ghost use Rattle.grain.specs.Spot.{is_spot};
ghost use Rattle.sheets.specs.Sheets.{entries_of};
ghost use Rattle.ending.specs.Search.{count_earlier, is_met_by};

use crate::moves::ProductMoves;
use grain::TradeDate;
use record::Contract;

// An enum: a function that hands out a closure or a function pointer, as `editions` would, is refused.
#[derive(Clone, Copy, Debug, PartialEq, Eq)]
pub enum Condition {
    // Exactly I, within the first N.
    OneAtInitial,
    // The same, of a product that has two such, or one of its last crop-year month.
    TwoAtInitial,
    // I or more.
    AtLeastInitial,
    // Exactly E.
    AtExpanded,
}

// How many non-spot contracts of a sheet are before a month.
#[tactic(auto, unfolding(crate::specs::Search::count_earlier))]
fn count_earlier(contracts: &[Contract], month: u32, date: TradeDate) -> usize
    ensures { result ≡ count_earlier (is_spot date) month contracts.now }
{
    contracts
        .iter()
        .filter(|c| !date.is_spot(c.month) && c.month < month)
        .count()
}

impl ProductMoves<'_> {
    // A move of a size is exactly I, within the first N.
    fn is_trigger(&self, month: u32, size: u32) -> bool
        ensures { result ≡ (ltb (count_earlier (is_spot self.now.date) month (entries_of self.now.today.now)) (first_of self.now.product) && eqb size self.now.limit.initial) }
    {
        if size != self.limit.initial {
            return false;
        }
        let earlier = count_earlier(self.today.entries(), month, self.date);
        earlier < grain::first_contracts(self.product) as usize
    }

    // The move of a month meets the condition, and the product's moves suffice for it.
    #[tactic(auto, unfolding(crate::specs::Search::is_met_by, crate::specs::Search::meets_on))]
    pub(crate) fn meet(&self, condition: Condition, month: u32) -> bool
        ensures { result ≡ is_met_by self.now.date self.now.product self.now.limit (entries_of self.now.today.now) (entries_of self.now.last.now) condition month }
    {
        if self.date.is_spot(month) {
            return false;
        }
        let Some(settlement) = self.today.find(month) else {
            return false;
        };
        let Some(size) = self.last.change_to(month, settlement) else {
            return false;
        };
        match condition {
            Condition::OneAtInitial => self.is_trigger(month, size),
            Condition::TwoAtInitial => self.is_trigger(month, size) && self.are_enough(),
            Condition::AtLeastInitial => self.limit.initial <= size,
            Condition::AtExpanded => size == self.limit.expanded,
        }
    }
}
