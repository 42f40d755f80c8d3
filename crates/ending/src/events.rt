// The event of each group, with its leading contract.
ghost use Rattle.std.specs.Prelude.{◌≡◌, map};
ghost use Rattle.record.specs.Edition.{conditions_of};
ghost use Rattle.record.specs.End.{led_by, event_of};
ghost use Rattle.record.specs.declared.Event.TheVariants.{Held, Reverted};
ghost use Rattle.record.specs.State.{initial, expanded};
ghost use Rattle.book.specs.Book.{is_set, standing_in};
ghost use Rattle.book.specs.Numbers.{all_groups};
ghost use Rattle.ending.specs.Lead.{lead_for, holding_of};
ghost use Rattle.ending.specs.Moves.{moves_in};
ghost use Rattle.ending.specs.Ends.{event_in};

use crate::editions::{holding_of, trigger_of};
use crate::lead::Condition;
use crate::moves::{DayMoves, GroupMoves};
use record::{Event, GROUP_COUNT};
use std::array;

impl GroupMoves<'_> {
    #[tactic(auto, using(crate::proofs::Asked::trigger_is), unfolding(record::specs::End::event_of))]
    fn initial_event(&self) -> Event
        ensures { result ≡ event_of (conditions_of self.now.day.book.now.edition) initial (is_set (standing_in self.now.day.book.now self.now.group).marked) (moves_in self.now) }
    {
        self.leading(trigger_of(self.day.book.edition))
            .map_or(Event::Quiet, Event::Triggered)
    }

    // Of an expanded group that is not raised.
    fn held_or_reverted(&self) -> Event
        ensures { result ≡ led_by (lead_for (holding_of self.now.day.book.now.edition) (moves_in self.now)) Held Reverted }
    {
        self.leading(holding_of(self.day.book.edition))
            .map_or(Event::Reverted, Event::Held)
    }

    #[tactic(auto, using(crate::proofs::Asked::holding_is), unfolding(record::specs::End::event_of))]
    fn expanded_event(&self, marked: bool) -> Event
        ensures { result ≡ event_of (conditions_of self.now.day.book.now.edition) expanded marked (moves_in self.now) }
    {
        if !marked {
            return self.held_or_reverted();
        }
        match self.leading(Condition::AtExpanded) {
            Some(at) => Event::Raised(at),
            None => self.held_or_reverted(),
        }
    }

    fn event(&self) -> Event
        ensures { result ≡ event_in self.now.day.book.now self.now.day.date self.now.group }
    {
        let standing = self.day.book.standings[self.group];
        if standing.is_expanded() {
            return self.expanded_event(standing.is_marked());
        }
        self.initial_event()
    }
}

impl DayMoves<'_> {
    pub(crate) fn events(&self) -> [Event; GROUP_COUNT]
        ensures { result ≡ map (event_in self.now.book.now self.now.date) all_groups }
    {
        array::from_fn(|group| self.of_group(group).event())
    }
}
