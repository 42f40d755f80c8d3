// What the numbers of a book say that are no amounts: its format, its flags, and whether there is a last opened day.
ghost use Rattle.std.specs.Prelude.{◌≡◌};
ghost use Rattle.std.specs.List.{list_all};
ghost use Rattle.book.specs.Book.{is_standing, is_book, is_set, opened_in};

use crate::standing::is_flag;
use crate::{Book, Standing};
use record::Day;

// The format of the books that are made and taken; another layout has another number.
pub const FORMAT: u32 = 3;

fn are_standings(standings: &[Standing]) -> bool
    ensures { result ≡ list_all is_standing standings.now }
{
    standings.iter().all(|s| s.has_flags())
}

impl Book {
    // Of this format, with flags that are 0 or 1.
    #[tactic(auto, unfolding(crate::specs::Book::is_book))]
    pub(crate) fn is_book(&self) -> bool
        ensures { result ≡ is_book self.now }
    {
        self.format == FORMAT && is_flag(self.is_open) && are_standings(&self.standings)
    }

    // A day is open.
    pub fn has_open_day(&self) -> bool
        ensures { result ≡ is_set self.now.is_open }
    {
        self.is_open == 1
    }

    // The last opened day.
    #[tactic(auto, unfolding(crate::specs::Book::opened_in))]
    pub fn opened(&self) -> Option<Day>
        ensures { result ≡ opened_in self.now }
    {
        if self.day == Day::default() {
            return None;
        }
        Some(self.day)
    }
}
