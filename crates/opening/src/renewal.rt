// The new limits of the products at an opening, and the windows that it empties.
ghost use Rattle.std.specs.Prelude.{◌≡◌, true, false, cond, ℕ, ◌<◌, get_or, unwrap_or, None, is_some};
ghost use Rattle.grain.specs.Lists.{every};
ghost use Rattle.grain.specs.Prices.{is_settlement};
ghost use Rattle.grain.specs.Products.{product_count};
ghost use Rattle.windows.specs.Windows.{shown, empty_windows};
ghost use Rattle.book.specs.Book.{no_limit};
ghost use Rattle.opening.specs.Opens.{new_limit};

use crate::seasons::SeasonChange;
use grain::{Limit, PRODUCT_COUNT};
use std::array;
use windows::Windows;

// The product's season limits, where it gets new ones: a window that is not full gives none.
fn new_limit(change: SeasonChange, p: u32, windows: &Windows) -> Option<Limit>
    requires { (p < product_count) × (every (is_settlement p) (shown windows.now p) ≡ true) }
    ensures { result ≡ new_limit change.renews (shown windows.now p) p }
{
    if !change.renews {
        return None;
    }
    windows.season_limits(p as usize).ok()
}

pub(crate) fn new_limits(change: SeasonChange, windows: &Windows) -> [Option<Limit>; PRODUCT_COUNT]
    requires { (p : ℕ) → p < product_count → every (is_settlement p) (shown windows.now p) ≡ true }
    ensures { (p : ℕ) → p < product_count → get_or result p None ≡ new_limit change.renews (shown windows.now p) p }
{
    array::from_fn(|p| new_limit(change, p as u32, windows))
}

// For each product, whether it gets new limits.
pub(crate) fn are_renewed(new: &[Option<Limit>; PRODUCT_COUNT]) -> [bool; PRODUCT_COUNT]
    ensures { (p : ℕ) → p < product_count → get_or result p false ≡ is_some (get_or new.now p None) }
{
    array::from_fn(|p| new[p].is_some())
}

// A product that gets no new limits keeps its own.
pub(crate) fn limits_on(
    new: &[Option<Limit>; PRODUCT_COUNT],
    limits: &[Limit; PRODUCT_COUNT],
) -> [Limit; PRODUCT_COUNT]
    ensures { (p : ℕ) → p < product_count → get_or result p no_limit ≡ unwrap_or (get_or new.now p None) (get_or limits.now p no_limit) }
{
    array::from_fn(|p| new[p].unwrap_or(limits[p]))
}

// In another season every window is emptied.
pub(crate) fn empty_on(change: SeasonChange, windows: &mut Windows)
    ensures { windows.new ≡ cond change.empties empty_windows windows.old }
{
    if change.empties {
        *windows = Windows::none();
    }
}
