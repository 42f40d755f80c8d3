// What refuses a conversion: 1, 2, 18 in this order.
ghost use Rattle.std.specs.Prelude.{◌≡◌};
ghost use Rattle.std.specs.List.{list_any};
ghost use Rattle.record.specs.Record.{convert, change, refusal};
ghost use Rattle.book.specs.Book.{is_set, view};
ghost use Rattle.book.specs.Calls.{refusal_in};

use book::{Book, EDITION_2014, Standing};
use grain::Refusal;

fn has_expanded(standings: &[Standing]) -> bool
    ensures { result ≡ list_any (λ s. is_set s.expanded) standings.now }
{
    standings.iter().any(|s| s.is_expanded())
}

#[tactic(auto, using(crate::proofs::Conversions::phase_refuses, crate::proofs::Conversions::levels_decide))]
pub(crate) fn refusal_of(b: &Book) -> Result<(), Refusal>
    ensures { refusal_in result ≡ refusal (view b.now) (change convert) }
{
    b.expect(false)?;
    if b.edition == EDITION_2014 && has_expanded(&b.standings) {
        return Err(Refusal::GroupExpanded);
    }
    Ok(())
}
