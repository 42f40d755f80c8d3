// The terms of a check: what holds for a product and size on the open day, whatever the month and price.
ghost use Rattle.checking.specs.Terms.{Offers};

use book::Book;
use grain::{Refusal, TradeDate};
use sheets::Sheet;

#[derive(Clone, Copy, Debug, PartialEq, Eq)]
pub struct Terms<'a> {
    pub tick: u32,
    pub limit: u32,
    pub date: TradeDate,
    // The sheet of the last ended day.
    pub last: &'a Sheet,
}

impl<'a> Terms<'a> {
    // 1, 2 or 5, or the terms.
    pub fn of(b: &'a Book, product: u32, size: u32) -> Result<Terms<'a>, Refusal>
        ensures { Offers b.now product size result }
    {
        let date = b.open_day()?.date;
        let tick = grain::tick(product, size);
        if tick == 0 {
            return Err(Refusal::NoSuchProduct);
        }
        let p = product as usize;
        Ok(Terms {
            tick,
            limit: b.limit_of(p),
            date,
            last: &b.last[p],
        })
    }
}
