// The limits of a product after its group's event: a raise gives I = old E and E afresh.
ghost use Rattle.std.specs.Prelude.{◌≡◌, ℕ, ◌<◌, get_or};
ghost use Rattle.record.specs.End.{is_raised};
ghost use Rattle.record.specs.State.{group_of};
ghost use Rattle.grain.specs.Products.{product_count};
ghost use Rattle.book.specs.Book.{no_limit};
ghost use Rattle.ending.specs.Ends.{quiet, limit_after};

use grain::{Limit, PRODUCT_COUNT};
use record::{Event, GROUP_COUNT};
use std::array;

fn limit_after(event: Event, product: u32, limit: Limit) -> Limit
    ensures { result ≡ limit_after (is_raised event) product limit }
{
    if !matches!(event, Event::Raised(_)) {
        return limit;
    }
    Limit::of(product, limit.expanded)
}

#[tactic(auto, using(record::proofs::GroupTable::group_small))]
pub(crate) fn limits_of_end(
    limits: &[Limit; PRODUCT_COUNT],
    events: &[Event; GROUP_COUNT],
) -> [Limit; PRODUCT_COUNT]
    ensures { (p : ℕ) → p < product_count → get_or result p no_limit ≡ limit_after (is_raised (get_or events.now (group_of p) quiet)) p (get_or limits.now p no_limit) }
{
    array::from_fn(|p| limit_after(events[book::group_of(p)], p as u32, limits[p]))
}
