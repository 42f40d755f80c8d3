// The Gregorian calendar, from 2000 to 2098.
ghost use Rattle.std.specs.Prelude.{◌≡◌};
ghost use Rattle.grain.specs.Dates.{is_leap, month_length, is_date};

fn is_leap(year: u32) -> bool
    ensures { result ≡ is_leap year }
{
    if year % 4 != 0 {
        return false;
    }
    if year % 100 != 0 {
        return true;
    }
    year % 400 == 0
}

// 0 where there is no such month.
pub fn month_length(year: u32, month: u32) -> u32
    ensures { result ≡ month_length year month }
{
    if month == 0 {
        return 0;
    }
    if 12 < month {
        return 0;
    }
    if month != 2 {
        // Months of 31 and of 30 days take turns, and begin afresh in August.
        return 30 + (month + month / 8) % 2;
    }
    if is_leap(year) {
        return 29;
    }
    28
}

// Whether three numbers are a date.
#[tactic(auto, unfolding(crate::specs::Dates::is_date))]
pub fn is_date(year: u32, month: u32, day: u32) -> bool
    ensures { result ≡ is_date year month day }
{
    if year < 2000 {
        return false;
    }
    if 2098 < year {
        return false;
    }
    if month < 1 {
        return false;
    }
    if 12 < month {
        return false;
    }
    if day < 1 {
        return false;
    }
    day <= month_length(year, month)
}
