// The opening of a day.
#![tactic(auto)]

ghost use Rattle.std.specs.Prelude.{◌≡◌, true};
ghost use Rattle.record.specs.Record.{answer, next as next_state, change, opening as call, opened as answered};
ghost use Rattle.record.specs.Sound.{is_sound};
ghost use Rattle.book.specs.Book.{opened_in, view};
ghost use Rattle.opening.specs.Opens.{Opens};

use book::Book;
use grain::{PRODUCT_COUNT, Refusal};
use record::Day;

mod dates;
mod laws;
mod refusals;
mod renewal;
mod seasons;
mod standings;

use dates::Dates;
pub use laws::season_start;
use renewal::{are_renewed, empty_on, limits_on, new_limits};
use seasons::SeasonChange;
use standings::standings_on;

// For each product, whether it got new limits.
pub fn opening(b: &mut Book, day: Day) -> Result<[bool; PRODUCT_COUNT], Refusal>
    ensures { Opens b.old day result b.new }
{
    let dates = Dates::of(b, day)?;
    Ok(accept(b, &dates))
}

// What an accepted opening does: new limits, with them the initial level, and the emptying of windows; sheets stay.
fn accept(b: &mut Book, dates: &Dates) -> [bool; PRODUCT_COUNT]
    requires sound { is_sound (view b.old) ≡ true }
    requires last { dates.now.last ≡ opened_in b.old }
    ensures { (answered result ≡ answer (view b.old) (change (call dates.now.day))) × (view b.new ≡ next_state (view b.old) (call dates.now.day)) }
{
    let change = SeasonChange::of(dates);
    let new = new_limits(change, &b.windows);
    let renewed = are_renewed(&new);
    b.limits = limits_on(&new, &b.limits);
    b.standings = standings_on(&renewed, b.standings);
    empty_on(change, &mut b.windows);
    b.day = dates.day;
    b.is_open = 1;
    renewed
}
