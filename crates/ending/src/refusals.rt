// What refuses an end: 1, 2, 12 in this order.
ghost use Rattle.std.specs.Prelude.{◌≡◌, Some};
ghost use Rattle.std.specs.Result.{ForOk};
ghost use Rattle.record.specs.Record.{end, change, refusal};
ghost use Rattle.book.specs.Book.{opened_in, view};
ghost use Rattle.book.specs.Calls.{refusal_in};

use book::{Book, OpenDay};
use grain::Refusal;

// The day that ends.
#[tactic(auto, using(crate::proofs::Outstanding::phase_refuses, crate::proofs::Outstanding::sheets_decide))]
pub(crate) fn ended_day(b: &Book) -> Result<OpenDay, Refusal>
    ensures refusal { refusal_in result ≡ refusal (view b.now) (change end) }
    ensures day { ForOk result (λ on. opened_in b.now ≡ Some on.day) }
{
    let on = b.open_day()?;
    if !b.are_all_in() {
        return Err(Refusal::SheetOutstanding);
    }
    Ok(on)
}
