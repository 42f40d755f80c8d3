// The season of a date against that of the last opened day.
ghost use Rattle.std.specs.Prelude.{◌≡◌, true};
ghost use Rattle.record.specs.Opening.{is_true_day, season_on, is_next_season, is_other_season};

use crate::dates::Dates;
use record::Day;

// The season's number of a true day.
fn season_of(d: Day) -> u32
    requires { is_true_day d ≡ true }
    ensures { result ≡ season_on d }
{
    match grain::date_facts(d.year, d.month, d.day) {
        Ok(facts) => facts.season,
        Err(_) => 0,
    }
}

// How the season of a day is to that of the last opened one.
// Two flags, each a definition of the Record: is_next_season and is_other_season.
#[derive(Clone, Copy, Debug, Default, PartialEq, Eq)]
pub(crate) struct SeasonChange {
    // It is exactly the next: full windows give new limits.
    pub(crate) renews: bool,
    // It is another: windows are emptied.
    pub(crate) empties: bool,
}

impl SeasonChange {
    // The first opening has no season before it.
    pub(crate) fn of(dates: &Dates) -> SeasonChange
        ensures { (result.renews ≡ is_next_season dates.now.last dates.now.day) × (result.empties ≡ is_other_season dates.now.last dates.now.day) }
    {
        let Some(before) = dates.last else {
            return SeasonChange::default();
        };
        let season = season_of(dates.day);
        let season_before = season_of(before);
        SeasonChange {
            renews: season == season_before + 1,
            empties: season != season_before,
        }
    }
}
