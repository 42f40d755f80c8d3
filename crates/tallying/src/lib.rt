// The check on a book through a gateway's tally.
#![tactic(auto)]

ghost use Rattle.checking.specs.Checks.{checked_as};
ghost use Rattle.tallying.specs.Tallies.{Tallies};

use book::Book;
use grain::{Refusal, Verdict};
use tally::Tally;

mod laws;

pub use laws::books_through_one_tally;

// Numbers, as a check takes them. Where the tally refuses, nothing is checked.
pub fn tallied_check(
    b: &Book,
    tally: &mut Tally,
    product: u32,
    size: u32,
    month: u32,
    price: u32,
) -> Result<Verdict, Refusal>
    ensures { Tallies b.now tally.old product size month price (checked_as result) tally.new }
{
    if let Some(refusal) = tally.refusal() {
        return Err(refusal);
    }
    tally.through(checking::check(b, product, size, month, price))
}
