// The editions of the rule that a book can be founded under, by year.
// Numbers, as callers have them: any other is refused with 17 at a founding, and with 1 in a book.
ghost use Rattle.std.specs.Prelude.{◌≡◌};
ghost use Rattle.record.specs.Edition.{is_edition, conditions_of};

pub const EDITION_2014: u32 = 2014;

pub const EDITION_2023: u32 = 2023;

pub fn is_edition(edition: u32) -> bool
    ensures { result ≡ is_edition edition }
{
    if edition == EDITION_2014 {
        return true;
    }
    edition == EDITION_2023
}

// Whether groups are marked, and so can be raised.
pub fn has_marks(edition: u32) -> bool
    ensures { result ≡ (conditions_of edition).has_marks }
{
    edition != EDITION_2014
}
