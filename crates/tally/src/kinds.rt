// What a check is counted as: its answer without the span or the number.
ghost use Rattle.std.specs.Prelude.{◌≡◌};
ghost use Rattle.tally.specs.Tally.{kind_of};

use grain::{Refusal, Verdict};

#[derive(Clone, Copy, Debug, PartialEq, Eq)]
pub enum Kind {
    Free,
    Within,
    Below,
    Above,
    Refused,
}

impl From<Result<Verdict, Refusal>> for Kind {
    ghost from_gives = { λ answer kind. kind ≡ kind_of answer };

    fn from(answer: Result<Verdict, Refusal>) -> Kind {
        match answer {
            Ok(Verdict::Free) => Kind::Free,
            Ok(Verdict::Within(_)) => Kind::Within,
            Ok(Verdict::Below(_)) => Kind::Below,
            Ok(Verdict::Above(_)) => Kind::Above,
            Err(_) => Kind::Refused,
        }
    }
}
