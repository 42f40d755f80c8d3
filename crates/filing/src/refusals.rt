// What refuses a sheet after 1 and 2: 5, 11, 6, 7, 8, 9, 10 in this order, each test over all contracts before the next.
ghost use Rattle.std.specs.Prelude.{◌≡◌, true, ◌<◌, None};
ghost use Rattle.grain.specs.Products.{product_count};
ghost use Rattle.record.specs.Refusals.{first};
ghost use Rattle.record.specs.State.{day_of, trade_date};
ghost use Rattle.record.specs.Sheet.{has_bad_month};
ghost use Rattle.record.specs.Sound.{is_sound};
ghost use Rattle.sheets.specs.Sheets.{entries_of, months_of};
ghost use Rattle.book.specs.Book.{view};
ghost use Rattle.book.specs.Calls.{refusal_in};
ghost use Rattle.filing.specs.Files.{early_tests, contract_tests};

use crate::quick::is_plainly_after;
use book::Book;
use grain::{Refusal, TradeDate};
use sheets::Sheet;

// Those before the contracts are looked at.
#[tactic(auto, using(crate::proofs::EarlyTests::early_is))]
pub(crate) fn early_refusal(
    b: &Book,
    product: u32,
    months: &[u32],
    settlements: &[u32],
) -> Result<(), Refusal>
    ensures { refusal_in result ≡ first (early_tests (view b.now) product months.now settlements.now) }
{
    if !grain::is_product(product) {
        return Err(Refusal::NoSuchProduct);
    }
    if !b.today[product as usize].is_none() {
        return Err(Refusal::AlreadyIn);
    }
    if sheets::is_misshapen(months, settlements) {
        return Err(Refusal::Misshapen);
    }
    Ok(())
}

#[tactic(auto, using(crate::proofs::Contracts::bad_month_by))]
fn has_bad_month(date: TradeDate, product: u32, s: &Sheet) -> bool
    ensures { result ≡ has_bad_month date.month product (months_of (entries_of s.now)) }
{
    !(s.is_ascending() && s.is_traded(product) && s.starts_from(date.month))
}

// A quick test that only accepts: false says nothing. The last ended sheet is sound, so months that are its own are traded and ascend.
fn passes_plainly(b: &Book, date: TradeDate, p: usize, s: &Sheet) -> bool
    requires { (p < product_count) × (is_sound (view b.now) ≡ true) × (date ≡ trade_date (day_of (view b.now).common)) }
    ensures { result ≡ true → first (contract_tests (view b.now) p (entries_of s.now)) ≡ None }
{
    // As they ascend, the first tells that none is before the date's month.
    let Some(nearest) = s.entries().first() else {
        return false;
    };
    date.month <= nearest.month && is_plainly_after(s, p as u32, b.limit_of(p), &b.last[p])
}

// Those that look at the contracts.
#[tactic(auto, using(crate::proofs::Contracts::late_is))]
pub(crate) fn contract_refusal(
    b: &Book,
    date: TradeDate,
    p: usize,
    s: &Sheet,
) -> Result<(), Refusal>
    requires { (p < product_count) × (is_sound (view b.now) ≡ true) × (date ≡ trade_date (day_of (view b.now).common)) }
    ensures { refusal_in result ≡ first (contract_tests (view b.now) p (entries_of s.now)) }
{
    // Most sheets pass every test; those one by one tell which refuses.
    if passes_plainly(b, date, p, s) {
        return Ok(());
    }
    let product = p as u32;
    if has_bad_month(date, product, s) {
        return Err(Refusal::BadMonth);
    }
    if !s.is_settled(product) {
        return Err(Refusal::BadPrice);
    }
    let last = &b.last[p];
    if s.lacks_contract(date, last) {
        return Err(Refusal::ContractAbsent);
    }
    if s.is_beyond(date, b.limit_of(p), last) {
        return Err(Refusal::BeyondLimit);
    }
    Ok(())
}
