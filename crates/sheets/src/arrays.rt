// A sheet from two arrays, as C lends them.
ghost use Rattle.std.specs.Prelude.{◌≡◌};
ghost use Rattle.record.specs.Sheet.{is_misshapen};
ghost use Rattle.sheets.specs.Sheets.{SheetOf};

use crate::Sheet;
use record::{Contract, MAX_CONTRACTS};

pub fn is_misshapen(months: &[u32], settlements: &[u32]) -> bool
    ensures { result ≡ is_misshapen months.now settlements.now }
{
    if months.len() != settlements.len() {
        return true;
    }
    if months.is_empty() {
        return true;
    }
    MAX_CONTRACTS < months.len()
}

impl Sheet {
    // The first 16 of the months and settlements put together.
    pub fn of(months: &[u32], settlements: &[u32]) -> Sheet
        ensures { SheetOf months.now settlements.now result }
    {
        let n = months.len().min(settlements.len()).min(MAX_CONTRACTS);
        let mut all = [Contract::default(); MAX_CONTRACTS];
        // By index: a proof learns nothing of what is written through `iter_mut().zip`.
        for (i, (month, settlement)) in months
            .iter()
            .zip(settlements)
            .take(MAX_CONTRACTS)
            .enumerate()
        {
            all[i] = Contract {
                month: *month,
                settlement: *settlement,
            };
        }
        Sheet {
            count: n as u32,
            contracts: all,
        }
    }
}
