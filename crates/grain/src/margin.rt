// The calls of the margin group, which has no book.
ghost use Rattle.std.specs.Prelude.{◌≡◌, ◌<◌, ◌^◌, sum};
ghost use Rattle.grain.specs.Margin.{expanded_limit_as, expanded_limit, season_limits_as, season_limits, date_facts_as, date_facts};

use crate::amounts::{Limit, WINDOW_LENGTH, expanded, is_fit_amount, season_initial};
use crate::dates::{is_date, month_length};
use crate::prices::are_settlements;
use crate::products::PRODUCTS;
use crate::refusals::Refusal;

// E of a product's initial limit.
pub fn expanded_limit(product: u32, initial: u32) -> Result<u32, Refusal>
    ensures { expanded_limit_as result ≡ expanded_limit product initial }
{
    if PRODUCTS <= product {
        return Err(Refusal::NoSuchProduct);
    }
    if !is_fit_amount(product, initial) {
        return Err(Refusal::UnfitAmount);
    }
    Ok(expanded(product, initial))
}

fn sum_of(settlements: &[u32]) -> u32
    requires { sum settlements.now < 2 ^ 32 }
    ensures { result ≡ sum settlements.now }
{
    settlements.iter().sum()
}

// The limits of a new season, from the 45 settlements of a product's window.
pub fn season_limits(product: u32, settlements: &[u32]) -> Result<Limit, Refusal>
    ensures { season_limits_as result ≡ season_limits product settlements.now }
{
    if PRODUCTS <= product {
        return Err(Refusal::NoSuchProduct);
    }
    if settlements.len() != WINDOW_LENGTH {
        return Err(Refusal::Misshapen);
    }
    if !are_settlements(product, settlements) {
        return Err(Refusal::BadPrice);
    }
    let initial = season_initial(product, sum_of(settlements));
    Ok(Limit::of(product, initial))
}

// What the calendar tells of a date.
#[derive(Clone, Copy, Debug, PartialEq, Eq)]
pub struct DateFacts {
    // The contract month that the date is in.
    pub month: u32,
    // The number of its season.
    pub season: u32,
    // The calendar days of its month after it.
    pub remaining: u32,
}

// What the calendar tells of three numbers, or 3 where they are no date.
pub fn date_facts(year: u32, month: u32, day: u32) -> Result<DateFacts, Refusal>
    ensures { date_facts_as result ≡ date_facts year month day }
{
    if !is_date(year, month, day) {
        return Err(Refusal::NoSuchDate);
    }
    let at = year * 12 + month - 1;
    Ok(DateFacts {
        month: at,
        season: (at - 4) / 6,
        remaining: month_length(year, month) - day,
    })
}
