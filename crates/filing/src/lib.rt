// A product's sheet of the open day.
#![tactic(auto)]

ghost use Rattle.filing.specs.Files.{Files};

use book::Book;
use grain::Refusal;
use sheets::Sheet;

mod quick;
mod refusals;

use refusals::{contract_refusal, early_refusal};

pub fn sheet(b: &mut Book, product: u32, months: &[u32], settlements: &[u32]) -> Result<(), Refusal>
    ensures { Files b.old product months.now settlements.now result b.new }
{
    let date = b.open_day()?.date;
    early_refusal(b, product, months, settlements)?;
    let p = product as usize;
    let sheet = Sheet::of(months, settlements);
    contract_refusal(b, date, p, &sheet)?;
    b.today[p] = sheet;
    Ok(())
}
