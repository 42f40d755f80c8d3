// Prices and settlements: in range and on the tick.
ghost use Rattle.std.specs.Prelude.{ℕ, ◌≡◌, true, ◌&&◌, ◌+◌, ◌-◌, ◌%◌, ◌^◌, leb, bit_or};
ghost use Rattle.grain.specs.Lists.{every};
ghost use Rattle.grain.specs.Prices.{is_on_tick, is_settlement};
ghost use Rattle.grain.specs.Joined.{IsJoined};

use crate::amounts::WINDOW_LENGTH;
use crate::products::tick;

// Prices and settlements run from 1 to it.
pub const MAX_PRICE: u32 = 1000000;

// A price of at most that much more than a tick of 1 or 2 is in range.
const MAX_JOINED: u32 = MAX_PRICE - 2;

// A price on the tick of its product and size; none is on a tick of 0.
pub fn is_on_tick(tick: u32, price: u32) -> bool
    ensures { result ≡ is_on_tick tick price }
{
    if tick == 0 {
        return false;
    }
    if price < 1 {
        return false;
    }
    if MAX_PRICE < price {
        return false;
    }
    if 2 < tick {
        return price % tick == 0;
    }
    // A tick of 1 takes every price, one of 2 the even ones: no division, and no branch to foresee.
    price % 2 + tick <= 2
}

// Prices joined, to be tested all at once: the bits of each less the tick.
pub fn join(joined: u32, tick: u32, price: u32) -> u32
    ensures value { result ≡ bit_or joined ((price + (2 ^ 32 - tick)) % 2 ^ 32) }
    ensures now { IsJoined tick result price }
    ensures still { (x : ℕ) → IsJoined tick joined x → IsJoined tick result x }
{
    joined | price.wrapping_sub(tick)
}

// Whether the joined prices are on a tick of 1 or 2. It only accepts: false says nothing.
pub fn are_joined_on_tick(tick: u32, joined: u32) -> bool
    ensures value { result ≡ (leb 1 tick && leb tick 2 && leb joined 999998 && leb (joined % 2 + tick) 2) }
    ensures accepts { result ≡ true → (x : ℕ) → IsJoined tick joined x → is_on_tick tick x ≡ true }
{
    if tick < 1 {
        return false;
    }
    if 2 < tick {
        return false;
    }
    if MAX_JOINED < joined {
        return false;
    }
    joined % 2 + tick <= 2
}

// A settlement is on the standard tick.
pub fn is_settlement(product: u32, settlement: u32) -> bool
    ensures { result ≡ is_settlement product settlement }
{
    is_on_tick(tick(product, 0), settlement)
}

// A quick test that only accepts: false says nothing. It goes through to the end, so that the compiler can join several at a time.
fn are_plain(tick: u32, prices: &[u32]) -> bool
    ensures { result ≡ true → every (is_on_tick tick) prices.now ≡ true }
{
    let mut joined: u32 = 0;
    for price in prices {
        joined = join(joined, tick, *price);
    }
    are_joined_on_tick(tick, joined)
}

fn are_each_on_tick(tick: u32, prices: &[u32]) -> bool
    ensures { result ≡ every (is_on_tick tick) prices.now }
{
    let mut all = true;
    for price in prices {
        all &= is_on_tick(tick, *price);
    }
    all
}

// Always inlined: with a call for each window a check is slower.
#[inline(always)]
pub fn are_on_tick(tick: u32, prices: &[u32]) -> bool
    ensures { result ≡ every (is_on_tick tick) prices.now }
{
    // A full window has a length that the compiler knows.
    if prices.len() == WINDOW_LENGTH {
        if are_plain(tick, &prices[..WINDOW_LENGTH]) {
            return true;
        }
    } else if are_plain(tick, prices) {
        return true;
    }
    are_each_on_tick(tick, prices)
}

pub(crate) fn are_settlements(product: u32, settlements: &[u32]) -> bool
    ensures { result ≡ every (is_settlement product) settlements.now }
{
    are_on_tick(tick(product, 0), settlements)
}
