// Why a call is refused. A caller in C gets the number.
ghost use Rattle.std.specs.Prelude.{◌≡◌};
ghost use Rattle.grain.specs.Refusals.{number_of};

#[derive(Clone, Copy, Debug, PartialEq, Eq)]
pub enum Refusal {
    Unsound = 1,
    WrongPhase = 2,
    NoSuchDate = 3,
    NotLater = 4,
    NoSuchProduct = 5,
    Misshapen = 6,
    BadMonth = 7,
    BadPrice = 8,
    ContractAbsent = 9,
    BeyondLimit = 10,
    AlreadyIn = 11,
    SheetOutstanding = 12,
    UnfitAmount = 13,
    NotListed = 14,
    TallyFull = 15,
    LeftNotSmaller = 16,
    UnknownEdition = 17,
    GroupExpanded = 18,
}

impl From<Refusal> for u32 {
    ghost from_gives = { λ refusal number. number ≡ number_of refusal };

    fn from(refusal: Refusal) -> u32 {
        refusal as u32
    }
}
