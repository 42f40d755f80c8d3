// A price against a settlement and a limit.
ghost use Rattle.std.specs.Prelude.{◌≡◌};
ghost use Rattle.grain.specs.Check.{span_by, span_in, verdict, verdict_number};

use crate::prices::MAX_PRICE;
use crate::verdicts::{ABOVE, BELOW, FREE, WITHIN};

// The prices that a limit allows, both ends included.
#[derive(Clone, Copy, Debug, Default, PartialEq, Eq)]
pub struct Span {
    pub lowest: u32,
    pub highest: u32,
}

#[derive(Clone, Copy, Debug, PartialEq, Eq)]
pub enum Verdict {
    // A spot contract has no limit, and so no span.
    Free,
    Within(Span),
    Below(Span),
    Above(Span),
}

impl Span {
    // Settlement minus limit, but not under the tick, to settlement plus limit, but not over 1,000,000.
    pub fn by(tick: u32, settlement: u32, limit: u32) -> Span
        ensures { result ≡ span_by tick settlement limit }
    {
        Span {
            lowest: settlement.saturating_sub(limit).max(tick),
            highest: settlement.saturating_add(limit).min(MAX_PRICE),
        }
    }
}

impl Verdict {
    // A spot contract has none.
    pub fn span(self) -> Option<Span>
        ensures { result ≡ span_in self }
    {
        match self {
            Verdict::Free => None,
            Verdict::Within(span) | Verdict::Below(span) | Verdict::Above(span) => Some(span),
        }
    }
}

// A caller in C gets the number.
impl From<Verdict> for u32 {
    ghost from_gives = { λ verdict number. number ≡ verdict_number verdict };

    fn from(verdict: Verdict) -> u32 {
        match verdict {
            Verdict::Free => FREE,
            Verdict::Within(_) => WITHIN,
            Verdict::Below(_) => BELOW,
            Verdict::Above(_) => ABOVE,
        }
    }
}

pub fn judge(spot: bool, tick: u32, settlement: u32, limit: u32, price: u32) -> Verdict
    ensures { result ≡ verdict spot tick settlement limit price }
{
    if spot {
        return Verdict::Free;
    }
    let span = Span::by(tick, settlement, limit);
    if (price as u64) + (limit as u64) < settlement as u64 {
        return Verdict::Below(span);
    }
    if (settlement as u64) + (limit as u64) < price as u64 {
        return Verdict::Above(span);
    }
    Verdict::Within(span)
}
