// The groups of products: the only table of them in code, and the group of a product.
ghost use Rattle.std.specs.Prelude.{◌≡◌};
ghost use Rattle.record.specs.State.{group_of};
ghost use Rattle.book.specs.Numbers.{products_before};

use grain::PRODUCT_COUNT;
use record::GROUP_COUNT;

// The products of a group stand together: of group g from STARTS[g], up to STARTS[g + 1] and not with it.
const STARTS: [usize; GROUP_COUNT + 1] = [0, 1, 4, 6, 7, PRODUCT_COUNT];

// How many products the groups before g have: where its own begin.
pub fn products_before(g: usize) -> usize
    ensures { result ≡ products_before g }
{
    if GROUP_COUNT < g {
        return PRODUCT_COUNT;
    }
    STARTS[g]
}

// The group that a product is in; GROUP_COUNT, which is no group, where there is no such product.
pub fn group_of(p: usize) -> usize
    ensures { result ≡ group_of p }
{
    (0..GROUP_COUNT)
        .find(|g| p < products_before(*g + 1))
        .unwrap_or(GROUP_COUNT)
}
