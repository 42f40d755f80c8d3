// The product table. Its columns stand apart since they are those of the definitions; one function reads each.
ghost use Rattle.std.specs.Prelude.{ℕ, ◌+◌, ◌/◌, ◌%◌, ◌^◌, ◌<◌, ◌≡◌, eqb};
ghost use Rattle.grain.specs.Products.{product_count, is_product, step_of, floor_of, first_of, tick_of, is_traded, is_last_crop_month};

// How many products there are.
pub const PRODUCT_COUNT: usize = 8;

// The same in the type of a product's number.
pub(crate) const PRODUCTS: u32 = PRODUCT_COUNT as u32;

const STEPS: [u8; PRODUCT_COUNT] = [40, 40, 50, 50, 40, 40, 40, 10];

// The least initial limits.
const FLOORS: [u16; PRODUCT_COUNT] = [160, 400, 200, 200, 240, 240, 160, 100];

// N of each, how many of the first listed non-spot contracts can trigger.
const FIRSTS: [u8; PRODUCT_COUNT] = [5, 7, 8, 8, 5, 5, 5, 6];

// The last month of each crop year; January is 1.
const LAST_CROP_MONTHS: [u8; PRODUCT_COUNT] = [9, 8, 9, 9, 5, 5, 5, 7];

// Of the standard sizes and of the minis; 0 where no mini is offered.
const TICKS: [[u8; PRODUCT_COUNT]; 2] = [[2, 2, 1, 1, 2, 2, 2, 1], [1, 1, 0, 0, 1, 0, 0, 0]];

// Months traded: bit 0 is January.
const MONTHS: [u16; PRODUCT_COUNT] = [
    0b1001_0101_0100,
    0b0101_1101_0101,
    0b1011_1101_0101,
    0b1011_1101_0101,
    0b1001_0101_0100,
    0b1001_0101_0100,
    0b1001_0101_0100,
    0b0101_0101_0101,
];

pub fn is_product(product: u32) -> bool
    ensures { result ≡ is_product product }
{
    product < PRODUCTS
}

// A bound, not a type of its own: every exported function takes any u32.
pub(crate) fn step(product: u32) -> u32
    requires { product < product_count }
    ensures { result ≡ step_of product }
{
    STEPS[product as usize] as u32
}

pub(crate) fn floor(product: u32) -> u32
    requires { product < product_count }
    ensures { result ≡ floor_of product }
{
    FLOORS[product as usize] as u32
}

// N; 0 where there is no such product.
pub fn first_contracts(product: u32) -> u32
    ensures { result ≡ first_of product }
{
    if PRODUCTS <= product {
        return 0;
    }
    FIRSTS[product as usize] as u32
}

// The tick of a size, 0 standard and 1 mini; 0 where the product or the size is not offered, and no price is on a tick of 0.
pub fn tick(product: u32, size: u32) -> u32
    ensures { result ≡ tick_of product size }
{
    if PRODUCTS <= product {
        return 0;
    }
    if 1 < size {
        return 0;
    }
    TICKS[size as usize][product as usize] as u32
}

// Whether the product trades in the calendar month of a contract month.
pub fn is_traded(product: u32, month: u32) -> bool
    ensures { result ≡ is_traded product month }
{
    if PRODUCTS <= product {
        return false;
    }
    (MONTHS[product as usize] >> (month % 12)) % 2 == 1
}

// The months that the product trades in, from a contract month on: bit d is the month d after it, for the next 48. None where there is no such
// product.
pub fn traded_from(product: u32, month: u32) -> u64
    ensures fits { result < 2 ^ 48 }
    ensures months { (d : ℕ) → d < 48 → eqb (result / 2 ^ d % 2) 1 ≡ is_traded product (month + d) }
{
    if PRODUCTS <= product {
        return 0;
    }
    // Five years from a January on, of which less than one is before the month.
    let years = MONTHS[product as usize] as u64 * 0x1001001001001;
    (years >> (month % 12)) % 0x1000000000000
}

// Whether a contract month is the last of the product's crop year.
pub fn is_last_crop_month(product: u32, month: u32) -> bool
    ensures { result ≡ is_last_crop_month product month }
{
    if PRODUCTS <= product {
        return false;
    }
    month % 12 + 1 == LAST_CROP_MONTHS[product as usize] as u32
}
