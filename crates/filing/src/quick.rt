// The quick test of a sheet that is filed, which only accepts: false says nothing, and the tests one by one decide.
ghost use Rattle.std.specs.Prelude.{◌≡◌, true};
ghost use Rattle.sheets.specs.Sheets.{entries_of};
ghost use Rattle.filing.specs.Plain.{PlainlyAfter};

use record::{Contract, MAX_CONTRACTS};
use sheets::Sheet;

// It goes through to the end, so that the compiler can compare several at a time.
fn are_plainly_after(product: u32, limit: u32, earlier: &[Contract], contracts: &[Contract]) -> bool
    ensures { result ≡ true → PlainlyAfter product limit earlier.now contracts.now }
{
    let tick = grain::tick(product, 0);
    let mut plain = earlier.len() == contracts.len();
    let mut joined: u32 = 0;
    for (before, contract) in earlier.iter().zip(contracts) {
        plain &= contract.month == before.month;
        plain &= contract.settlement.abs_diff(before.settlement) <= limit;
        joined = grain::join(joined, tick, contract.settlement);
    }
    plain && grain::are_joined_on_tick(tick, joined)
}

// Of the last ended sheet's months, each in its place, with settlements on the tick that moved by at most the limit.
pub(crate) fn is_plainly_after(s: &Sheet, product: u32, limit: u32, last: &Sheet) -> bool
    ensures { result ≡ true → PlainlyAfter product limit (entries_of last.now) (entries_of s.now) }
{
    // Most are full; of a known length the compiler tests them without a loop.
    if s.count as usize == MAX_CONTRACTS && last.count as usize == MAX_CONTRACTS {
        return are_plainly_after(product, limit, &last.contracts, &s.contracts);
    }
    are_plainly_after(product, limit, last.entries(), s.entries())
}
