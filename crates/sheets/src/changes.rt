// A sheet against the last ended one: what is missing, and what moved too far.
ghost use Rattle.std.specs.Prelude.{◌≡◌};
ghost use Rattle.grain.specs.Spot.{is_spot};
ghost use Rattle.record.specs.Sheet.{lacks_contract, is_beyond};
ghost use Rattle.sheets.specs.Sheets.{entries_of};

use crate::Sheet;
use grain::TradeDate;

impl Sheet {
    // A contract of the last ended sheet, non-spot on the date, is not on this one.
    pub fn lacks_contract(&self, date: TradeDate, last: &Sheet) -> bool
        ensures { result ≡ lacks_contract (is_spot date) (entries_of last.now) (entries_of self.now) }
    {
        last.entries()
            .iter()
            .any(|c| !date.is_spot(c.month) && self.find(c.month).is_none())
    }

    // A non-spot change from the last ended sheet is beyond the limit.
    pub fn is_beyond(&self, date: TradeDate, limit: u32, last: &Sheet) -> bool
        ensures { result ≡ is_beyond (is_spot date) limit (entries_of last.now) (entries_of self.now) }
    {
        self.entries().iter().any(|c| {
            !date.is_spot(c.month)
                && last
                    .change_to(c.month, c.settlement)
                    .is_some_and(|change| limit < change)
        })
    }
}
