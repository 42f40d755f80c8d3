// What refuses an opening: 1, 2, 3, 4, 16 in this order.
ghost use Rattle.std.specs.Prelude.{◌≡◌};
ghost use Rattle.std.specs.Result.{ForOk};
ghost use Rattle.record.specs.Record.{opening, change, refusal};
ghost use Rattle.book.specs.Book.{opened_in, view};
ghost use Rattle.book.specs.Calls.{refusal_in};

use crate::dates::Dates;
use book::Book;
use grain::Refusal;
use record::Day;

impl Dates {
    // The first of the five that applies, or the day with the last opened one of the book.
    #[tactic(auto, using(crate::proofs::Refused::early_opening, crate::proofs::Refused::late_opening))]
    pub(crate) fn of(b: &Book, day: Day) -> Result<Dates, Refusal>
        ensures refusal { refusal_in result ≡ refusal (view b.now) (change (opening day)) }
        ensures dates { ForOk result (λ dates. (dates.last ≡ opened_in b.now) × (dates.day ≡ day)) }
    {
        b.expect(false)?;
        if !book::is_true_day(day) {
            return Err(Refusal::NoSuchDate);
        }
        let dates = Dates {
            last: b.opened(),
            day,
        };
        if dates.is_not_later() {
            return Err(Refusal::NotLater);
        }
        if dates.is_left_not_smaller() {
            return Err(Refusal::LeftNotSmaller);
        }
        Ok(dates)
    }
}
