// A whole book, in one line.
ghost use Rattle.std.specs.Iterator.{IsFinite};

use crate::shown::Shown;
use book::Book;
use grain::PRODUCT_COUNT;
use record::{Contract, Day};
use sheets::Sheet;
use std::fmt;
use std::fmt::{Display, Formatter};

impl Display for Shown<'_, Option<Day>> {
    fn fmt<W: fmt::Write>(&self, f: &mut Formatter<W>) -> fmt::Result {
        match self.0 {
            Some(day) => write!(f, "{}-{}-{}", day.year, day.month, day.day),
            None => write!(f, "none"),
        }
    }
}

// The settlements of a window.
#[derive(Drop)]
struct Kept<'a>(&'a [u32]);

impl Display for Kept<'_> {
    fn fmt<W: fmt::Write>(&self, f: &mut Formatter<W>) -> fmt::Result {
        write!(f, "[")?;
        f.write_joined(self.0.iter(), ",")?;
        write!(f, "]")
    }
}

impl Display for Shown<'_, Contract> {
    fn fmt<W: fmt::Write>(&self, f: &mut Formatter<W>) -> fmt::Result {
        write!(f, "{}:{}", self.0.month, self.0.settlement)
    }
}

impl Display for Shown<'_, Sheet> {
    fn fmt<W: fmt::Write>(&self, f: &mut Formatter<W>) -> fmt::Result {
        let s = self.0;
        if s.is_none() {
            return write!(f, "-");
        }
        write!(f, "[")?;
        f.write_joined(s.entries().iter().map(Shown), ",")?;
        write!(f, "]")
    }
}

// A name, and the items of a row with a mark between each two.
fn write_row<W: fmt::Write, T: Display + Drop, I: Iterator<Item = T>>(
    f: &mut Formatter<W>,
    name: &str,
    items: I,
    mark: &str,
) -> fmt::Result
    requires can { I.can_next items }
    requires ends { IsFinite (I.remaining items) }
{
    write!(f, " {name}=")?;
    f.write_joined(items, mark)
}

impl Display for Shown<'_, Book> {
    fn fmt<W: fmt::Write>(&self, f: &mut Formatter<W>) -> fmt::Result {
        let b = self.0;
        let opened = b.opened();
        write!(f, "book open={}", b.is_open)?;
        write!(f, " date={}", Shown(&opened))?;
        match opened {
            Some(day) if b.has_open_day() => write!(f, " left={}", day.left)?,
            _ => write!(f, " left=-")?,
        }
        write_row(f, "level", b.standings.iter().map(|s| s.expanded), "")?;
        write_row(f, "mark", b.standings.iter().map(|s| s.marked), "")?;
        write_row(f, "I", b.limits.iter().map(|limit| limit.initial), ",")?;
        write_row(f, "E", b.limits.iter().map(|limit| limit.expanded), ",")?;
        let windows = (0..PRODUCT_COUNT).map(|p| Kept(b.windows.kept(p)));
        write_row(f, "windows", windows, ";")?;
        write_row(f, "in", b.today.iter().map(Shown), ";")?;
        write_row(f, "last", b.last.iter().map(Shown), ";")?;
        write!(f, " edition={}", b.edition)
    }
}
