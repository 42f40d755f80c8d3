// Today's limit of a product: what a check and a sheet's changes go by.
ghost use Rattle.std.specs.Prelude.{◌≡◌};
ghost use Rattle.record.specs.State.{group_of, group_at, todays_limit};
ghost use Rattle.book.specs.Book.{view};

use crate::Book;
use crate::groups::group_of;
use grain::PRODUCT_COUNT;

impl Book {
    // I or E, by the level of the product's group; 0 where there is no such product.
    #[tactic(auto, using(record::proofs::GroupTable::group_small))]
    pub fn limit_of(&self, p: usize) -> u32
        ensures { result ≡ todays_limit (group_at (view self.now) (group_of p)) p }
    {
        if PRODUCT_COUNT <= p {
            return 0;
        }
        let limit = self.limits[p];
        if self.standings[group_of(p)].is_expanded() {
            return limit.expanded;
        }
        limit.initial
    }
}
