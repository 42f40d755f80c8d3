// The span of prices that a check goes by: an end each of the bare check, and both with the answer of the check on a book.
ghost use Rattle.std.specs.Prelude.{◌≡◌};
ghost use Rattle.grain.specs.Bare.{bare_answer, bare_span};
ghost use Rattle.checking.specs.Checks.{checked_as};
ghost use Rattle.gateway.specs.Calls.{with_span, image_span};

use crate::image::Image;
use grain::{Refusal, Span, Verdict, checked_number};

// For C: an answer's number and the ends of its span, which are 0 where it is free or refused.
#[repr(C)]
#[derive(Clone, Copy, Debug, PartialEq, Eq)]
pub struct Spanned {
    pub answer: u32,
    pub lowest: u32,
    pub highest: u32,
}

// Two zeros where a check is free or refused.
fn span_of(checked: Result<Verdict, Refusal>) -> Span
    ensures { result ≡ bare_span checked }
{
    checked.ok().and_then(Verdict::span).unwrap_or_default()
}

// The span of a bare check: two exported names, an end each.
#[unsafe(no_mangle)]
pub extern "C" fn botskhela_bare_lowest(
    product: u32,
    size: u32,
    settlement: u32,
    amount: u32,
    spot: u32,
    price: u32,
) -> u32
    ensures { result ≡ (bare_span (bare_answer product size settlement amount spot price)).lowest }
{
    span_of(grain::bare_check(product, size, settlement, amount, spot, price)).lowest
}

#[unsafe(no_mangle)]
pub extern "C" fn botskhela_bare_highest(
    product: u32,
    size: u32,
    settlement: u32,
    amount: u32,
    spot: u32,
    price: u32,
) -> u32
    ensures { result ≡ (bare_span (bare_answer product size settlement amount spot price)).highest }
{
    span_of(grain::bare_check(product, size, settlement, amount, spot, price)).highest
}

impl From<Result<Verdict, Refusal>> for Spanned {
    ghost from_gives = { λ checked spanned. spanned ≡ with_span (checked_as checked) };

    fn from(checked: Result<Verdict, Refusal>) -> Spanned {
        let span = span_of(checked);
        Spanned {
            answer: checked_number(checked),
            lowest: span.lowest,
            highest: span.highest,
        }
    }
}

#[unsafe(no_mangle)]
pub extern "C" fn botskhela_check_span(
    image: &Image,
    product: u32,
    size: u32,
    month: u32,
    price: u32,
) -> Spanned
    ensures { result ≡ image_span image.now product size month price }
{
    checking::check(&image.book, product, size, month, price).into()
}
