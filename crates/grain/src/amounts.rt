// Amounts: the expanded limit E of an initial limit I, the season limit, and which amounts are fit.
ghost use Rattle.std.specs.Prelude.{◌≡◌, ◌+◌, ◌*◌, ◌/◌, ◌<◌, ◌≤◌, ◌^◌};
ghost use Rattle.grain.specs.Amounts.{expanded_of, season_by, is_fit, is_fit_amount, is_fit_founding};
ghost use Rattle.grain.specs.Products.{product_count, step_of, floor_of};

use crate::products::{PRODUCTS, floor, step};

// No limit is larger.
pub const MAX_LIMIT: u32 = 2000000;

// No limit that a book is founded on is larger.
pub const MAX_FOUNDING: u32 = 1000000;

// How many settlements make a season limit.
pub const WINDOW_LENGTH: usize = 45;

// A product's limits: I and E of the rule.
#[repr(C)]
#[derive(Clone, Copy, Debug, Default, PartialEq, Eq)]
pub struct Limit {
    pub initial: u32,
    pub expanded: u32,
}

// The largest multiple of the step that is at most x / parts.
fn whole_steps(x: u64, parts: u64, step: u64) -> u64
    requires { (0 < parts) × (parts ≤ 4500) × (0 < step) × (step < 2 ^ 32) }
    ensures { result ≡ step * (x / (parts * step)) }
{
    step * (x / (parts * step))
}

impl Limit {
    // I with its E.
    pub fn of(product: u32, initial: u32) -> Limit
        ensures { result ≡ record { initial = initial; expanded = expanded_of product initial } }
    {
        Limit {
            initial,
            expanded: expanded(product, initial),
        }
    }
}

// E of I; 0 where there is no such product.
pub fn expanded(product: u32, initial: u32) -> u32
    ensures { result ≡ expanded_of product initial }
{
    if PRODUCTS <= product {
        return 0;
    }
    let step = step(product) as u64;
    let rounded = whole_steps(3 * (initial as u64) + (2 * step - 1), 2, step);
    rounded.min(MAX_LIMIT as u64) as u32
}

// The season limit of a sum of 45 settlements.
pub(crate) fn season_initial(product: u32, sum: u32) -> u32
    requires { product < product_count }
    ensures { result ≡ season_by (step_of product) (floor_of product) sum }
{
    let step = step(product) as u64;
    let rounded = whole_steps(7 * (sum as u64) + 2250 * step, 4500, step) as u32;
    rounded.max(floor(product))
}

fn is_fit(most: u32, product: u32, amount: u32) -> bool
    ensures { result ≡ is_fit most product amount }
{
    if PRODUCTS <= product {
        return false;
    }
    if amount < floor(product) {
        return false;
    }
    if most < amount {
        return false;
    }
    amount % step(product) == 0
}

// A limit or a bare check's amount: a multiple of the step, from the floor to 2,000,000.
pub fn is_fit_amount(product: u32, amount: u32) -> bool
    ensures { result ≡ is_fit_amount product amount }
{
    is_fit(MAX_LIMIT, product, amount)
}

// A founding limit: the same, to 1,000,000.
pub fn is_fit_founding(product: u32, amount: u32) -> bool
    ensures { result ≡ is_fit_founding product amount }
{
    is_fit(MAX_FOUNDING, product, amount)
}
