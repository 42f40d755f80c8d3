// What each edition of the rule asks of a move; whether it has marks is the book's. An edition is a number, as in a book.
ghost use Rattle.std.specs.Prelude.{◌≡◌};
ghost use Rattle.ending.specs.Lead.{trigger_of, holding_of};

use crate::lead::Condition;
use book::EDITION_2014;

// To trigger a group.
pub(crate) fn trigger_of(edition: u32) -> Condition
    ensures { result ≡ trigger_of edition }
{
    if edition == EDITION_2014 {
        return Condition::TwoAtInitial;
    }
    Condition::OneAtInitial
}

// To hold an expanded one.
pub(crate) fn holding_of(edition: u32) -> Condition
    ensures { result ≡ holding_of edition }
{
    if edition == EDITION_2014 {
        return Condition::AtExpanded;
    }
    Condition::AtLeastInitial
}
