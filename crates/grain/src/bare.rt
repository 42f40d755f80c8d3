// The bare check: a price against a settlement and an amount, with no book.
ghost use Rattle.std.specs.Prelude.{◌≡◌};
ghost use Rattle.grain.specs.Bare.{bare_answer, checked_number};

use crate::amounts::is_fit_amount;
use crate::check::{Verdict, judge};
use crate::prices::{is_on_tick, is_settlement};
use crate::products::tick;
use crate::refusals::Refusal;

// Numbers, as a caller in C passes them: every u32 is answered. A spot that is not 0 means spot.
// Inline: behind a call its result goes through memory, and an order takes a third longer.
#[inline(always)]
pub fn bare_check(
    product: u32,
    size: u32,
    settlement: u32,
    amount: u32,
    spot: u32,
    price: u32,
) -> Result<Verdict, Refusal>
    ensures { result ≡ bare_answer product size settlement amount spot price }
{
    let tick = tick(product, size);
    if tick == 0 {
        return Err(Refusal::NoSuchProduct);
    }
    if !is_settlement(product, settlement) {
        return Err(Refusal::BadPrice);
    }
    if !is_on_tick(tick, price) {
        return Err(Refusal::BadPrice);
    }
    if !is_fit_amount(product, amount) {
        return Err(Refusal::UnfitAmount);
    }
    Ok(judge(spot != 0, tick, settlement, amount, price))
}

// What a caller in C gets of a check.
pub fn checked_number(answer: Result<Verdict, Refusal>) -> u32
    ensures { result ≡ checked_number answer }
{
    match answer {
        Ok(verdict) => verdict.into(),
        Err(refusal) => refusal.into(),
    }
}
