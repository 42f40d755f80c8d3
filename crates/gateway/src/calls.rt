// The calls on a book that C keeps: the same calls in Rattle, on the very book.
ghost use Rattle.std.specs.Prelude.{[], ◌∷◌, ◌≡◌};
ghost use Rattle.record.specs.Record.{opening, sheet, end};
ghost use Rattle.opening.specs.Opens.{day_on};
ghost use Rattle.gateway.specs.Calls.{RespondsImage, ConvertsImage, image_check, FoundsImage, number_in};

use crate::image::{Image, events_words, renewed_words};
use grain::Refusal;
use record::Day;

// The number of a call that answers nothing: 0, or that of its refusal.
fn number(answer: Result<(), Refusal>) -> u32
    ensures { result ≡ number_in answer }
{
    match answer {
        Ok(()) => 0,
        Err(refusal) => refusal.into(),
    }
}

#[unsafe(no_mangle)]
pub extern "C" fn botskhela_found(
    image: &mut Image,
    edition: u32,
    corn: u32,
    soybeans: u32,
    soybean_oil: u32,
    soybean_meal: u32,
    chicago_wheat: u32,
    kc_wheat: u32,
    oats: u32,
    rough_rice: u32,
) -> u32
    ensures { FoundsImage image.old (record { edition = edition; limits = corn ∷ soybeans ∷ soybean_oil ∷ soybean_meal ∷ chicago_wheat ∷ kc_wheat ∷ oats ∷ rough_rice ∷ [] }) result image.new }
{
    let limits = [
        corn,
        soybeans,
        soybean_oil,
        soybean_meal,
        chicago_wheat,
        kc_wheat,
        oats,
        rough_rice,
    ];
    match book::found(edition, limits) {
        Ok(fresh) => {
            *image = Image::of(fresh);
            0
        }
        Err(refusal) => refusal.into(),
    }
}

#[unsafe(no_mangle)]
pub extern "C" fn botskhela_open(
    image: &mut Image,
    year: u32,
    month: u32,
    day: u32,
    left: u32,
) -> u32
    ensures { RespondsImage image.old (opening (day_on year month day left)) result image.new }
{
    let opened = Day {
        year,
        month,
        day,
        left,
    };
    match opening::opening(&mut image.book, opened) {
        Ok(renewed) => {
            image.renewed = renewed_words(&renewed);
            0
        }
        Err(refusal) => refusal.into(),
    }
}

#[unsafe(no_mangle)]
pub extern "C" fn botskhela_sheet(
    image: &mut Image,
    product: u32,
    months: &[u32],
    settlements: &[u32],
) -> u32
    ensures { RespondsImage image.old (sheet product months.now settlements.now) result image.new }
{
    number(filing::sheet(&mut image.book, product, months, settlements))
}

#[unsafe(no_mangle)]
pub extern "C" fn botskhela_end(image: &mut Image) -> u32
    ensures { RespondsImage image.old end result image.new }
{
    match ending::end(&mut image.book) {
        Ok(events) => {
            image.events = events_words(&events);
            0
        }
        Err(refusal) => refusal.into(),
    }
}

#[unsafe(no_mangle)]
pub extern "C" fn botskhela_convert(image: &mut Image) -> u32
    ensures { ConvertsImage image.old result image.new }
{
    number(converting::convert(&mut image.book))
}

#[unsafe(no_mangle)]
pub extern "C" fn botskhela_check(
    image: &Image,
    product: u32,
    size: u32,
    month: u32,
    price: u32,
) -> u32
    ensures { result ≡ image_check image.now product size month price }
{
    grain::checked_number(checking::check(&image.book, product, size, month, price))
}
