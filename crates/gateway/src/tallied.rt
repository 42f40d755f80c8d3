// The bare check and the check on a book through a tally. Where the tally refuses, nothing is checked.
ghost use Rattle.grain.specs.Bare.{checked_number};
ghost use Rattle.gateway.specs.Tallied.{Tallies, TalliesBare, TalliesImage};

use crate::image::Image;
use grain::{Refusal, Verdict, checked_number};
use tally::Tally;

// Passes a check's answer through the tally, and gives its number.
fn through(tally: &mut Tally, checked: Result<Verdict, Refusal>) -> u32
    ensures { Tallies (checked_number checked) tally.old result tally.new }
{
    let answer = tally.through(checked);
    checked_number(answer)
}

#[unsafe(no_mangle)]
pub extern "C" fn botskhela_tallied_check(
    tally: &mut Tally,
    product: u32,
    size: u32,
    settlement: u32,
    amount: u32,
    spot: u32,
    price: u32,
) -> u32
    ensures { TalliesBare tally.old product size settlement amount spot price result tally.new }
{
    if let Some(refusal) = tally.refusal() {
        return u32::from(refusal);
    }
    through(
        tally,
        grain::bare_check(product, size, settlement, amount, spot, price),
    )
}

#[unsafe(no_mangle)]
pub extern "C" fn botskhela_tallied_book_check(
    tally: &mut Tally,
    image: &Image,
    product: u32,
    size: u32,
    month: u32,
    price: u32,
) -> u32
    ensures { TalliesImage tally.old image.now product size month price result tally.new }
{
    if let Some(refusal) = tally.refusal() {
        return u32::from(refusal);
    }
    through(
        tally,
        checking::check(&image.book, product, size, month, price),
    )
}
