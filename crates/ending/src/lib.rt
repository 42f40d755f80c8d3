// The end of a day: for each group its event with the leading contract, its level, mark and limits; then the windows.
#![tactic(auto)]

ghost use Rattle.std.specs.Prelude.{◌≡◌, true, Some};
ghost use Rattle.record.specs.Record.{answer, next as next_state, change, end as call, ended as answered};
ghost use Rattle.record.specs.Sound.{is_sound};
ghost use Rattle.book.specs.Book.{opened_in, view};
ghost use Rattle.ending.specs.Ends.{Ends};

use book::{Book, OpenDay};
use grain::{PRODUCT_COUNT, Refusal};
use record::{Event, GROUP_COUNT};
use sheets::Sheet;

mod collection;
mod editions;
mod events;
mod lead;
mod limits;
mod moves;
mod refusals;
mod standings;

use collection::collect_all;
use limits::limits_of_end;
use moves::DayMoves;
use refusals::ended_day;

// For each group, its event; an event carries its leading contract, where it has one.
pub fn end(b: &mut Book) -> Result<[Event; GROUP_COUNT], Refusal>
    ensures { Ends b.old result b.new }
{
    let on = ended_day(b)?;
    Ok(accepted(b, on))
}

// Events are by the levels, limits and marks before the end; today's sheets become the last ended ones.
fn accepted(b: &mut Book, on: OpenDay) -> [Event; GROUP_COUNT]
    requires { (is_sound (view b.old) ≡ true) × (opened_in b.old ≡ Some on.day) }
    ensures { (answered result ≡ answer (view b.old) (change call)) × (view b.new ≡ next_state (view b.old) call) }
{
    let moves = DayMoves {
        book: b,
        date: on.date,
    };
    let events = moves.events();
    let standings = moves.standings(&events);
    b.standings = standings;
    b.limits = limits_of_end(&b.limits, &events);
    collect_all(&mut b.windows, &on, &b.today);
    b.last = b.today;
    b.today = [Sheet::none(); PRODUCT_COUNT];
    b.is_open = 0;
    events
}
