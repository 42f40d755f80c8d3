// A day's trade date, and the open day with its trade date.
ghost use Rattle.std.specs.Prelude.{◌≡◌, true};
ghost use Rattle.record.specs.Opening.{is_true_day};
ghost use Rattle.record.specs.State.{trade_date};
ghost use Rattle.book.specs.Dates.{trade_date_of};

use grain::TradeDate;
use record::Day;

// The open day of a sound book.
#[derive(Clone, Copy, Debug, PartialEq, Eq)]
pub struct OpenDay {
    pub day: Day,
    pub date: TradeDate,
    pub ghost is_true: { is_true_day day ≡ true },
    pub ghost dated: { date ≡ trade_date day },
}

// A day whose year is past 2098 or whose month is none has no trade date.
// Whether it is a date, soundness judges: here the calendar is not asked again.
pub fn trade_date(d: Day) -> Option<TradeDate>
    ensures { result ≡ trade_date_of d }
{
    if 2098 < d.year {
        return None;
    }
    if d.month < 1 {
        return None;
    }
    if 12 < d.month {
        return None;
    }
    Some(TradeDate {
        month: d.year * 12 + d.month - 1,
        left: d.left,
    })
}
