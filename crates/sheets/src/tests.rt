// The tests that a sheet passes by itself, each over all its contracts.
ghost use Rattle.std.specs.Prelude.{◌≡◌, true, leb};
ghost use Rattle.grain.specs.Lists.{◌and◌, every, is_ascending};
ghost use Rattle.grain.specs.Products.{is_traded};
ghost use Rattle.grain.specs.Prices.{is_on_tick, is_settlement};
ghost use Rattle.record.specs.Sound.{is_sound_sheet};
ghost use Rattle.sheets.specs.Sheets.{entries_of, sheet_in, months_of, settlements_of, are_sound_contracts};

use crate::Sheet;
use record::{Contract, MAX_CONTRACTS};

// A contract that may come next: its month is not before `from` and is traded, its settlement is on the tick.
fn is_sound_contract(product: u32, tick: u32, from: u64, contract: &Contract) -> bool
    ensures { result ≡ (leb from contract.now.month and is_traded product contract.now.month and is_on_tick tick contract.now.settlement) }
{
    if (contract.month as u64) < from {
        return false;
    }
    if !grain::is_traded(product, contract.month) {
        return false;
    }
    grain::is_on_tick(tick, contract.settlement)
}

// A quick test that only accepts: false says nothing, and the tests one by one decide. It has no division for each month, and tests all
// settlements at once.
fn are_plain(product: u32, contracts: &[Contract]) -> bool
    ensures { result ≡ true → are_sound_contracts product contracts.now ≡ true }
{
    let Some(nearest) = contracts.first() else {
        return true;
    };
    let tick = grain::tick(product, 0);
    let first = nearest.month;
    let traded = grain::traded_from(product, first);
    // The least month that the next contract may have.
    let mut from = first as u64;
    let mut joined: u32 = 0;
    for contract in contracts {
        let month = contract.month as u64;
        if month < from {
            return false;
        }
        // Within 48 months the remainder is the number itself; whether all are, the last of them tells.
        let after = (month - first as u64) % 64;
        if (traded >> after) % 2 == 0 {
            return false;
        }
        from = month + 1;
        joined = grain::join(joined, tick, contract.settlement);
    }
    if first as u64 + 48 < from {
        return false;
    }
    grain::are_joined_on_tick(tick, joined)
}

impl Sheet {
    // Its months ascend strictly.
    pub fn is_ascending(&self) -> bool
        ensures { result ≡ is_ascending (months_of (entries_of self.now)) }
    {
        self.entries().is_sorted_by(|c, next| c.month < next.month)
    }

    // The product trades in each of its months.
    pub fn is_traded(&self, product: u32) -> bool
        ensures { result ≡ every (is_traded product) (months_of (entries_of self.now)) }
    {
        self.entries()
            .iter()
            .all(|c| grain::is_traded(product, c.month))
    }

    // None of its months is before a month.
    pub fn starts_from(&self, month: u32) -> bool
        ensures { result ≡ every (leb month) (months_of (entries_of self.now)) }
    {
        self.entries().iter().all(|c| month <= c.month)
    }

    // Each of its settlements is in range and on the product's standard tick.
    pub fn is_settled(&self, product: u32) -> bool
        ensures { result ≡ every (is_settlement product) (settlements_of (entries_of self.now)) }
    {
        let tick = grain::tick(product, 0);
        self.entries()
            .iter()
            .all(|c| grain::is_on_tick(tick, c.settlement))
    }

    // Three of these tests in one loop, which decides where the quick test says nothing.
    fn are_sound(&self, product: u32) -> bool
        ensures { result ≡ are_sound_contracts product (entries_of self.now) }
    {
        let tick = grain::tick(product, 0);
        // The least month that the next contract may have; it is 64 bits wide because a month may be the largest u32.
        let mut from: u64 = 0;
        let contracts = self.entries();
        for contract in contracts {
            if !is_sound_contract(product, tick, from, contract) {
                return false;
            }
            from = contract.month as u64 + 1;
        }
        true
    }

    // Whether a book may hold it, for a product.
    // Always inlined: what a product's two sheets have in common is then looked up once.
    #[inline(always)]
    pub fn is_sound(&self, product: u32) -> bool
        ensures { result ≡ is_sound_sheet product (sheet_in self.now) }
    {
        if self.is_none() {
            return true;
        }
        if MAX_CONTRACTS < self.count as usize {
            return false;
        }
        // A full sheet is most of them; of a known length the compiler tests it without a loop.
        if self.count as usize == MAX_CONTRACTS {
            if are_plain(product, &self.contracts) {
                return true;
            }
        } else if are_plain(product, self.entries()) {
            return true;
        }
        self.are_sound(product)
    }
}
