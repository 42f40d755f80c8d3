// The day that is to be opened, and whether it may follow the last opened one.
ghost use Rattle.std.specs.Prelude.{◌≡◌, true};
ghost use Rattle.std.specs.Option.{ForSome};
ghost use Rattle.record.specs.Opening.{is_true_day, is_not_later, is_same_month, is_left_not_smaller};

use record::Day;

// Both are true days.
#[derive(Clone, Copy, Debug, PartialEq, Eq)]
pub(crate) struct Dates {
    // The last opened day. Before the first opening there is none.
    pub(crate) last: Option<Day>,
    pub(crate) day: Day,
    pub(crate) ghost last_true: { ForSome last (λ before. is_true_day before ≡ true) },
    pub(crate) ghost day_true: { is_true_day day ≡ true },
}

fn is_same_month(before: Day, d: Day) -> bool
    ensures { result ≡ is_same_month before d }
{
    d.year == before.year && d.month == before.month
}

impl Dates {
    // 4: days are opened in order, by year, then month, then day.
    pub(crate) fn is_not_later(&self) -> bool
        ensures { result ≡ is_not_later self.now.last self.now.day }
    {
        let Some(before) = self.last else {
            return false;
        };
        let d = self.day;
        (d.year, d.month, d.day) <= (before.year, before.month, before.day)
    }

    // 16: within a month, each day leaves fewer business days than the one before it.
    pub(crate) fn is_left_not_smaller(&self) -> bool
        ensures { result ≡ is_left_not_smaller self.now.last self.now.day }
    {
        let Some(before) = self.last else {
            return false;
        };
        is_same_month(before, self.day) && before.left <= self.day.left
    }
}
