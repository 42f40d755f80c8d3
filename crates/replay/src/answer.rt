// What answers a line.
use crate::shown::Shown;
use book::Book;
use grain::{Refusal, Verdict};
use history::Reply;
use std::fmt;
use std::fmt::{Display, Formatter};

#[derive(Clone, Copy, Debug, PartialEq, Eq)]
pub(crate) enum Answer<'a> {
    Founded,
    Replied(Reply),
    Judged(Verdict),
    Book(&'a Book),
}

// Why a call has no other answer.
#[derive(Clone, Copy, Debug, PartialEq, Eq)]
pub(crate) enum Failure {
    NoBook,
    Refused(Refusal),
}

impl From<Refusal> for Failure {
    fn from(refusal: Refusal) -> Failure {
        Failure::Refused(refusal)
    }
}

impl Display for Failure {
    fn fmt<W: fmt::Write>(&self, f: &mut Formatter<W>) -> fmt::Result {
        match self {
            Failure::NoBook => write!(f, "no book"),
            Failure::Refused(refusal) => write!(f, "refused {}", u32::from(*refusal)),
        }
    }
}

impl Display for Answer<'_> {
    fn fmt<W: fmt::Write>(&self, f: &mut Formatter<W>) -> fmt::Result {
        match self {
            Answer::Founded => write!(f, "founded"),
            Answer::Replied(reply) => write!(f, "{}", Shown(reply)),
            Answer::Judged(verdict) => write!(f, "{}", Shown(verdict)),
            Answer::Book(book) => write!(f, "{}", Shown(*book)),
        }
    }
}
