// Spot contracts, which have no limit.
ghost use Rattle.std.specs.Prelude.{◌≡◌};
ghost use Rattle.grain.specs.Spot.{is_spot};

// A date as spot is judged by it.
#[derive(Clone, Copy, Debug, PartialEq, Eq)]
pub struct TradeDate {
    // The contract month that the date is in.
    pub month: u32,
    // The business days of that month after the date.
    pub left: u32,
}

impl TradeDate {
    // Whether a contract month is spot on the date.
    pub fn is_spot(self, month: u32) -> bool
        ensures { result ≡ is_spot self month }
    {
        if month <= self.month {
            return true;
        }
        if month != self.month + 1 {
            return false;
        }
        self.left <= 1
    }
}
