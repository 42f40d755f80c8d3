// The months that a group's contracts have on its sheets.
ghost use Rattle.std.specs.Prelude.{◌≡◌};
ghost use Rattle.sheets.specs.Sheets.{entries_of};
ghost use Rattle.ending.specs.Search.{next_on, next_among};

use sheets::Sheet;

// The nearest month on a sheet after a month.
#[tactic(auto, unfolding(crate::specs::Search::next_on))]
fn next_on(sheet: &Sheet, after: u32) -> Option<u32>
    ensures { result ≡ next_on after (entries_of sheet.now) }
{
    sheet
        .entries()
        .iter()
        .map(|c| c.month)
        .filter(|month| after < *month)
        .min()
}

// The nearest on the sheets of today.
#[tactic(auto, unfolding(crate::specs::Search::next_among))]
pub(crate) fn next_month(sheets: &[Sheet], after: u32) -> Option<u32>
    ensures { result ≡ next_among after sheets.now }
{
    sheets.iter().filter_map(|s| next_on(s, after)).min()
}
