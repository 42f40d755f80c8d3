// The conversion of a book from the edition of 2014 to that of 2023.
#![tactic(auto)]

ghost use Rattle.converting.specs.Converts.{Converts};

use book::{Book, EDITION_2023};
use grain::Refusal;

mod refusals;

use refusals::refusal_of;

// A book under 2023 stays the very book.
pub fn convert(b: &mut Book) -> Result<(), Refusal>
    ensures { Converts b.old result b.new }
{
    refusal_of(b)?;
    b.edition = EDITION_2023;
    Ok(())
}
