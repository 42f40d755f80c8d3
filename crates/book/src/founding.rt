// A fresh book, under an edition of the rule, from eight initial limits.
ghost use Rattle.std.specs.Prelude.{◌≡◌};
ghost use Rattle.record.specs.Founding.{are_fit, founded};
ghost use Rattle.book.specs.Book.{view};
ghost use Rattle.book.specs.Founding.{no_book, Founds};

use crate::editions::is_edition;
use crate::shape::FORMAT;
use crate::{Book, Standing};
use grain::{Limit, PRODUCT_COUNT, Refusal};
use record::{Day, GROUP_COUNT};
use sheets::Sheet;
use std::array;
use windows::Windows;

fn are_fit(limits: &[u32; PRODUCT_COUNT]) -> bool
    ensures { result ≡ are_fit limits.now }
{
    limits
        .iter()
        .enumerate()
        .all(|(p, limit)| grain::is_fit_founding(p as u32, *limit))
}

impl Book {
    // All zeros, which is of no format: every call on it is refused.
    pub fn none() -> Book
        ensures { result ≡ no_book }
    {
        Book {
            format: 0,
            edition: 0,
            is_open: 0,
            day: Day::default(),
            limits: [Limit::default(); PRODUCT_COUNT],
            standings: [Standing::default(); GROUP_COUNT],
            windows: Windows::none(),
            today: [Sheet::none(); PRODUCT_COUNT],
            last: [Sheet::none(); PRODUCT_COUNT],
        }
    }
}

// All groups at the initial level, with no day and no sheets.
fn fresh(edition: u32, limits: [u32; PRODUCT_COUNT]) -> Book
    ensures { view result ≡ founded (record { edition = edition; limits = limits }) }
{
    Book {
        format: FORMAT,
        edition,
        limits: array::from_fn(|p| Limit::of(p as u32, limits[p])),
        ..Book::none()
    }
}

pub fn found(edition: u32, limits: [u32; PRODUCT_COUNT]) -> Result<Book, Refusal>
    ensures { Founds (record { edition = edition; limits = limits }) result }
{
    if !is_edition(edition) {
        return Err(Refusal::UnknownEdition);
    }
    if !are_fit(&limits) {
        return Err(Refusal::UnfitAmount);
    }
    Ok(fresh(edition, limits))
}
