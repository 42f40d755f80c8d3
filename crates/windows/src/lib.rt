// The windows of the products: of each its last 45 collected settlements.
// Every function here takes any windows: a size beyond the 45 places is read in all of them, and judged unsound.
#![tactic(auto)]

ghost use Rattle.std.specs.Prelude.{◌≡◌, ◌+◌, ◌*◌, ◌≤◌, length, leb, eqb, take, Some};
ghost use Rattle.grain.specs.Amounts.{window_length};
ghost use Rattle.grain.specs.Margin.{season_limits_as, season_limits};
ghost use Rattle.record.specs.Window.{collect};
ghost use Rattle.windows.specs.Windows.{size_in, kept_of, shown, empty_windows, Collects, Empties};

use grain::{Limit, PRODUCT_COUNT, Refusal, WINDOW_LENGTH};

// The settlements of a full window but the oldest.
const BUT_OLDEST: usize = WINDOW_LENGTH - 1;

// The places of all products.
pub const SETTLEMENTS: usize = PRODUCT_COUNT * WINDOW_LENGTH;

// As C has them. No heap: the places are there whatever the sizes. A book from C can hold any sizes, which soundness then judges.
#[repr(C)]
#[derive(Clone, Copy, Debug, PartialEq, Eq)]
pub struct Windows {
    // How many of its places each product uses.
    pub sizes: [u32; PRODUCT_COUNT],
    // Oldest first. Product p has the 45 places from 45 p on.
    // One flat array, as the rule's document names it: a window is a slice of it, lent without a copy.
    pub settlements: [u32; SETTLEMENTS],
}

// One settlement more in a product's places, of which a size are used; how many are then. Of a full window the oldest goes.
fn put(places: &mut [u32], size: u32, settlement: u32) -> u32
    requires { (length places.old ≡ window_length) × (size ≤ window_length) }
    ensures fits { result ≤ window_length }
    ensures long { length places.new ≡ window_length }
    ensures kept { take result places.new ≡ collect (take size places.old) (Some settlement) }
{
    let n = size as usize;
    if n == WINDOW_LENGTH {
        // By a copy, since to move them within their places the C library's memmove would be needed.
        let mut kept = [settlement; WINDOW_LENGTH];
        kept[..BUT_OLDEST].copy_from_slice(&places[1..]);
        places.copy_from_slice(&kept);
        return size;
    }
    places[n] = settlement;
    size + 1
}

impl Windows {
    pub fn none() -> Windows
        ensures { result ≡ empty_windows }
    {
        Windows {
            sizes: [0; PRODUCT_COUNT],
            settlements: [0; SETTLEMENTS],
        }
    }

    // How many of its places a product uses; 0 where there is no such product.
    fn size(&self, p: usize) -> usize
        ensures { result ≡ size_in self.now p }
    {
        if PRODUCT_COUNT <= p {
            return 0;
        }
        self.sizes[p] as usize
    }

    // The settlements of a product in the places that its size reaches.
    pub fn kept(&self, p: usize) -> &[u32]
        ensures { result.now ≡ kept_of self.now p }
    {
        if PRODUCT_COUNT <= p {
            return &[];
        }
        let from = WINDOW_LENGTH * p;
        let to = from + self.size(p).min(WINDOW_LENGTH);
        &self.settlements[from..to]
    }

    // Whether a product's size is within its places.
    pub fn fits(&self, p: usize) -> bool
        ensures { result ≡ leb (size_in self.now p) window_length }
    {
        self.size(p) <= WINDOW_LENGTH
    }

    // Whether a product's window has all its 45 settlements.
    pub fn is_full(&self, p: usize) -> bool
        ensures { result ≡ eqb (length (shown self.now p)) window_length }
    {
        self.size(p) == WINDOW_LENGTH
    }

    // The season limits that a product's full window gives.
    pub fn season_limits(&self, p: usize) -> Result<Limit, Refusal>
        ensures { season_limits_as result ≡ season_limits p (shown self.now p) }
    {
        if PRODUCT_COUNT <= p {
            return Err(Refusal::NoSuchProduct);
        }
        if !self.is_full(p) {
            return Err(Refusal::Misshapen);
        }
        grain::season_limits(p as u32, self.kept(p))
    }

    // One settlement more, after which the window has the last 45. Where there is no such product, or its size is damaged, all stays as it is.
    pub fn collect(&mut self, p: usize, settlement: u32)
        ensures { Collects self.old p settlement self.new }
    {
        if PRODUCT_COUNT <= p {
            return;
        }
        if !self.fits(p) {
            return;
        }
        let from = WINDOW_LENGTH * p;
        let to = from + WINDOW_LENGTH;
        self.sizes[p] = put(&mut self.settlements[from..to], self.sizes[p], settlement);
    }

    // A product's window without settlements; what stood in its places is no part of it any more.
    pub fn empty(&mut self, p: usize)
        ensures { Empties self.old p self.new }
    {
        if PRODUCT_COUNT <= p {
            return;
        }
        self.sizes[p] = 0;
    }
}
