// A sheet, and its contracts as a slice.
ghost use Rattle.std.specs.Prelude.{◌≡◌, not, None, is_some};
ghost use Rattle.sheets.specs.Sheets.{empty_sheet, entries_of, sheet_in};

use record::{Contract, MAX_CONTRACTS};

// As C has it. No heap: the places are there whatever the count. A book from C can hold any count, which soundness then judges.
#[repr(C)]
#[derive(Clone, Copy, Debug, Default, PartialEq, Eq)]
pub struct Sheet {
    // How many of the places are used; 0 where there is no sheet. Places that are not used may hold anything.
    pub count: u32,
    pub contracts: [Contract; MAX_CONTRACTS],
}

impl Sheet {
    pub fn none() -> Sheet
        ensures value { result ≡ empty_sheet }
        ensures none { sheet_in result ≡ None }
    {
        Sheet::default()
    }

    pub fn is_none(&self) -> bool
        ensures { result ≡ not (is_some (sheet_in self.now)) }
    {
        self.count == 0
    }

    // The contracts in the places that the count reaches.
    pub fn entries(&self) -> &[Contract]
        ensures { result.now ≡ entries_of self.now }
    {
        &self.contracts[..(self.count as usize).min(MAX_CONTRACTS)]
    }
}
