// The first two tests of a call on a book: whether it is sound, and whether a day is open.
ghost use Rattle.std.specs.Prelude.{◌≡◌};
ghost use Rattle.book.specs.Book.{view};
ghost use Rattle.book.specs.Calls.{refusal_in};
ghost use Rattle.book.specs.Phase.{phase_refusal, OffersDay};

use crate::Book;
use crate::dates::{OpenDay, trade_date};
use grain::Refusal;

impl Book {
    // 1, or 2 where a day is open and the call asks for none, or none is and the call asks for one.
    pub fn expect(&self, is_open: bool) -> Result<(), Refusal>
        ensures { refusal_in result ≡ phase_refusal is_open (view self.now) }
    {
        if !self.is_sound() {
            return Err(Refusal::Unsound);
        }
        if self.has_open_day() != is_open {
            return Err(Refusal::WrongPhase);
        }
        Ok(())
    }

    // 1, 2 or the open day.
    pub fn open_day(&self) -> Result<OpenDay, Refusal>
        ensures { OffersDay self.now result }
    {
        self.expect(true)?;
        // A sound book has a day, and its trade date, where a day is open.
        let day = self.opened().ok_or(Refusal::Unsound)?;
        let date = trade_date(day).ok_or(Refusal::Unsound)?;
        Ok(OpenDay { day, date })
    }
}
