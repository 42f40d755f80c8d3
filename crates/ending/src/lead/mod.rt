// The leading contract of a group: of those that meet an event's condition, the nearest month, then the lowest product number.
ghost use Rattle.std.specs.Prelude.{◌≡◌, ◌<◌, ◌+◌, slice_range};
ghost use Rattle.grain.specs.Products.{product_count};
ghost use Rattle.book.specs.Book.{limit_in, today_in, last_in};
ghost use Rattle.book.specs.Numbers.{products_before};
ghost use Rattle.ending.specs.Lead.{lead_for};
ghost use Rattle.ending.specs.Moves.{moves_in};

use crate::moves::{GroupMoves, ProductMoves};
pub(crate) use condition::Condition;
use months::next_month;
use record::Lead;
use sheets::Sheet;
use std::ops::Range;

mod condition;
mod enough;
mod months;

impl GroupMoves<'_> {
    // The numbers of the group's products, which stand together.
    fn numbers(&self) -> Range<usize>
        ensures { (result.start ≡ products_before self.now.group) × (result.end ≡ products_before (self.now.group + 1)) }
    {
        book::products_before(self.group)..book::products_before(self.group + 1)
    }

    #[tactic(auto, using(book::proofs::ProductsBefore::before_next, book::proofs::ProductsBefore::before_small))]
    fn sheets(&self) -> &[Sheet]
        ensures { result.now ≡ slice_range self.now.day.book.now.today (products_before self.now.group) (products_before (self.now.group + 1)) }
    {
        &self.day.book.today[self.numbers()]
    }

    // Of one product, by its number.
    fn of_product(&self, p: usize) -> ProductMoves<'_>
        requires { p < product_count }
        ensures product { result.product ≡ p }
        ensures limit { result.limit ≡ limit_in self.now.day.book.now p }
        ensures today { result.today.now ≡ today_in self.now.day.book.now p }
        ensures last { result.last.now ≡ last_in self.now.day.book.now p }
        ensures date { result.date ≡ self.now.day.date }
    {
        let book = self.day.book;
        ProductMoves {
            product: p as u32,
            limit: book.limits[p],
            today: &book.today[p],
            last: &book.last[p],
            date: self.day.date,
        }
    }

    #[tactic(auto, using(book::proofs::ProductsBefore::before_small))]
    pub(crate) fn leading(&self, condition: Condition) -> Option<Lead>
        ensures { result ≡ lead_for condition (moves_in self.now) }
    {
        let sheets = self.sheets();
        // In the date's month every contract is spot.
        let mut month = self.day.date.month;
        // Left by label at the leading contract, where the search stops: the nearest month, then the lowest product number.
        'months: loop {
            let Some(next) = next_month(sheets, month) else {
                break None;
            };
            // By number, which the lead names.
            for p in self.numbers() {
                let moves = self.of_product(p);
                if moves.meet(condition, next) {
                    break 'months Some(Lead {
                        month: next,
                        product: moves.product,
                    });
                }
            }
            // Each turn starts from the month that the one before found.
            month = next;
        }
    }
}
