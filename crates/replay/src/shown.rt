// What the crates below answer, as text.
use grain::{Span, Verdict};
use history::Reply;
use record::{Event, Lead};
use std::fmt;
use std::fmt::{Display, Formatter};

mod whole;

// A value of another crate, which gives it no text.
#[derive(Clone, Copy)]
pub(crate) struct Shown<'a, T>(pub(crate) &'a T);

impl Display for Shown<'_, Span> {
    fn fmt<W: fmt::Write>(&self, f: &mut Formatter<W>) -> fmt::Result {
        write!(f, "{}:{}", self.0.lowest, self.0.highest)
    }
}

impl Display for Shown<'_, Verdict> {
    fn fmt<W: fmt::Write>(&self, f: &mut Formatter<W>) -> fmt::Result {
        match self.0 {
            Verdict::Free => write!(f, "free"),
            Verdict::Within(span) => write!(f, "within:{}", Shown(span)),
            Verdict::Below(span) => write!(f, "below:{}", Shown(span)),
            Verdict::Above(span) => write!(f, "above:{}", Shown(span)),
        }
    }
}

impl Display for Shown<'_, Lead> {
    fn fmt<W: fmt::Write>(&self, f: &mut Formatter<W>) -> fmt::Result {
        write!(f, "{}:{}", self.0.month, self.0.product)
    }
}

impl Display for Shown<'_, Event> {
    fn fmt<W: fmt::Write>(&self, f: &mut Formatter<W>) -> fmt::Result {
        match self.0 {
            Event::Quiet => write!(f, "quiet"),
            Event::Triggered(lead) => write!(f, "triggered:{}", Shown(lead)),
            Event::Held(lead) => write!(f, "held:{}", Shown(lead)),
            Event::Reverted => write!(f, "reverted"),
            Event::Raised(lead) => write!(f, "raised:{}", Shown(lead)),
        }
    }
}

impl Display for Shown<'_, Reply> {
    fn fmt<W: fmt::Write>(&self, f: &mut Formatter<W>) -> fmt::Result {
        match self.0 {
            Reply::Opened(renewed) => {
                write!(f, "opened ")?;
                f.write_joined(renewed.iter().map(|r| u8::from(*r)), " ")
            }
            Reply::Filed => write!(f, "filed"),
            Reply::Ended(events) => {
                write!(f, "ended ")?;
                f.write_joined(events.iter().map(Shown), " ")
            }
            Reply::Converted => write!(f, "converted"),
            Reply::Checked(verdict) => write!(f, "{}", Shown(verdict)),
        }
    }
}
