// The level and mark of each group after its event.
ghost use Rattle.std.specs.Prelude.{◌≡◌, ℕ, ◌<◌, get_or, ◌&&◌};
ghost use Rattle.std.specs.List.{list_any};
ghost use Rattle.record.specs.Edition.{conditions_of};
ghost use Rattle.record.specs.Move.{is_at_expanded};
ghost use Rattle.record.specs.State.{group_count};
ghost use Rattle.book.specs.Book.{no_standing};
ghost use Rattle.ending.specs.Moves.{moves_in};
ghost use Rattle.ending.specs.Ends.{standing_after, standing_of_end};

use crate::lead::Condition;
use crate::moves::{DayMoves, GroupMoves};
use book::Standing;
use record::{Event, GROUP_COUNT};
use std::array;

// Held with a move of exactly E, which `reached` says, is marked; every other event clears the mark.
fn standing_after(event: Event, reached: bool) -> Standing
    ensures { result ≡ standing_after event reached }
{
    match event {
        Event::Triggered(_) => Standing::of(true, false),
        Event::Held(_) => Standing::of(true, reached),
        Event::Quiet | Event::Reverted | Event::Raised(_) => Standing::default(),
    }
}

impl GroupMoves<'_> {
    // One of the group moved by exactly E.
    fn is_at_expanded(&self) -> bool
        ensures { result ≡ list_any (list_any is_at_expanded) (moves_in self.now) }
    {
        self.leading(Condition::AtExpanded).is_some()
    }

    // A move of exactly E is looked for only in a held group, of an edition that has marks: nothing else can set one.
    fn standing(&self, event: Event) -> Standing
        ensures { result ≡ standing_after event ((conditions_of self.now.day.book.now.edition).has_marks && list_any (list_any is_at_expanded) (moves_in self.now)) }
    {
        let can_mark = book::has_marks(self.day.book.edition) && matches!(event, Event::Held(_));
        standing_after(event, can_mark && self.is_at_expanded())
    }
}

impl DayMoves<'_> {
    pub(crate) fn standings(&self, events: &[Event; GROUP_COUNT]) -> [Standing; GROUP_COUNT]
        ensures { (g : ℕ) → g < group_count → get_or result g no_standing ≡ standing_of_end self.now.book.now self.now.date events.now g }
    {
        array::from_fn(|group| self.of_group(group).standing(events[group]))
    }
}
