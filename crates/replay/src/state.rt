// Where a history stands after some of its calls.
use crate::answer::{Answer, Failure};
use crate::call::Line;
use book::Book;

#[derive(Debug, Default, Drop, PartialEq, Eq)]
pub(crate) struct State {
    // None before a founding.
    book: Option<Book>,
}

impl State {
    fn book(&self) -> Result<&Book, Failure> {
        self.book.as_ref().ok_or(Failure::NoBook)
    }

    fn book_mut(&mut self) -> Result<&mut Book, Failure> {
        self.book.as_mut().ok_or(Failure::NoBook)
    }

    pub(crate) fn answer(&mut self, line: Line<'_>) -> Result<Answer<'_>, Failure> {
        match line {
            Line::Found(f) => {
                self.book = Some(book::found(f.edition, f.limits)?);
                Ok(Answer::Founded)
            }
            Line::Call(call) => Ok(Answer::Replied(history::respond(self.book_mut()?, call)?)),
            Line::Bare(c) => {
                let verdict = grain::bare_check(
                    c.product,
                    c.size,
                    c.settlement,
                    c.amount,
                    c.spot,
                    c.price,
                )?;
                Ok(Answer::Judged(verdict))
            }
            Line::Book => Ok(Answer::Book(self.book()?)),
        }
    }
}
