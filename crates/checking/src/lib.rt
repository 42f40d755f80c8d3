// A price check on an open day.
#![tactic(auto)]

ghost use Rattle.checking.specs.Checks.{Checks};

use book::Book;
use grain::{Refusal, Verdict};

mod judged;
mod terms;

pub use terms::Terms;

// The numbers of an order, as callers have them: every u32 is answered.
pub fn check(b: &Book, product: u32, size: u32, month: u32, price: u32) -> Result<Verdict, Refusal>
    ensures { Checks b.now product size month price result }
{
    let terms = Terms::of(b, product, size)?;
    terms.judged(month, price)
}
