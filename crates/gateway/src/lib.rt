// What C programs call: the bare check, the calls on a book, the span of either check, and either check through a tally. include/botskhela.h says what the
// arguments and answers are. No function here has a `requires`; a book is the struct that C keeps, lent by reference.
#![tactic(auto)]

ghost use Rattle.std.specs.Prelude.{◌≡◌};
ghost use Rattle.grain.specs.Bare.{bare_check};

mod calls;
mod image;
mod laws;
mod lists;
mod spans;
mod tallied;

pub use calls::{
    botskhela_check, botskhela_convert, botskhela_end, botskhela_found, botskhela_open,
    botskhela_sheet,
};
pub use image::{EventWords, Image};
pub use laws::{
    bare_through_one_tally, images_as_books, images_through_one_tally, no_image, zero_accepts,
};
pub use lists::{respond, respond_span};
pub use spans::{Spanned, botskhela_bare_highest, botskhela_bare_lowest, botskhela_check_span};
pub use tallied::{botskhela_tallied_book_check, botskhela_tallied_check};

// On plain numbers, as a gateway has them: it keeps no book.
#[unsafe(no_mangle)]
pub extern "C" fn botskhela_bare_check(
    product: u32,
    size: u32,
    settlement: u32,
    amount: u32,
    spot: u32,
    price: u32,
) -> u32
    ensures { result ≡ bare_check product size settlement amount spot price }
{
    grain::checked_number(grain::bare_check(product, size, settlement, amount, spot, price))
}
