// The settlement of a month on a sheet.
ghost use Rattle.std.specs.Prelude.{◌≡◌};
ghost use Rattle.std.specs.Option.{option_map};
ghost use Rattle.grain.specs.Lists.{distance};
ghost use Rattle.record.specs.State.{settlement_on};
ghost use Rattle.sheets.specs.Sheets.{entries_of};

use crate::Sheet;

impl Sheet {
    pub fn find(&self, month: u32) -> Option<u32>
        ensures { result ≡ settlement_on (entries_of self.now) month }
    {
        self.entries()
            .iter()
            .find(|c| c.month == month)
            .map(|c| c.settlement)
    }

    // How far a settlement of a month is from the one on this sheet.
    pub fn change_to(&self, month: u32, settlement: u32) -> Option<u32>
        ensures { result ≡ option_map (distance settlement) (settlement_on (entries_of self.now) month) }
    {
        self.find(month).map(|earlier| settlement.abs_diff(earlier))
    }
}
