// The moves of the day that ends: what those of a group, and of a product, are read from.
ghost use Rattle.std.specs.Prelude.{◌≡◌, ◌<◌};
ghost use Rattle.record.specs.State.{group_count};
ghost use Rattle.ending.specs.Lead.{Readable};

use book::Book;
use grain::{Limit, TradeDate};
use sheets::Sheet;

// The moves of all groups: the book, and the trade date of its open day.
#[derive(Clone, Copy, Debug, PartialEq, Eq)]
pub(crate) struct DayMoves<'a> {
    pub(crate) book: &'a Book,
    pub(crate) date: TradeDate,
    pub(crate) ghost readable: { Readable book.now },
}

// Of one group.
#[derive(Clone, Copy, Debug, PartialEq, Eq)]
pub(crate) struct GroupMoves<'a> {
    pub(crate) day: DayMoves<'a>,
    pub(crate) group: usize,
    pub(crate) ghost numbered: { group < group_count },
}

impl<'a> DayMoves<'a> {
    pub(crate) fn of_group(&self, group: usize) -> GroupMoves<'a>
        requires { group < group_count }
        ensures { (result.day.book.now ≡ self.now.book.now) × (result.day.date ≡ self.now.date) × (result.group ≡ group) }
    {
        GroupMoves { day: *self, group }
    }
}

// Of a product, from what a book holds of it.
#[derive(Clone, Copy, Debug, PartialEq, Eq)]
pub(crate) struct ProductMoves<'a> {
    pub(crate) product: u32,
    pub(crate) limit: Limit,
    pub(crate) today: &'a Sheet,
    pub(crate) last: &'a Sheet,
    pub(crate) date: TradeDate,
}
