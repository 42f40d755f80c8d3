// Any call of the lists, made as a C program makes it.
ghost use Rattle.record.specs.Record.{check, question};
ghost use Rattle.history.specs.Calls.{call_as};
ghost use Rattle.gateway.specs.Images.{sees, ImageStep};

use crate::calls::{
    botskhela_check, botskhela_convert, botskhela_end, botskhela_open, botskhela_sheet,
};
use crate::image::Image;
use crate::spans::{Spanned, botskhela_check_span};
use history::{Call, Order};

// No program calls it: by its contract the prover ties what is shown of lists to the exported functions.
pub fn respond(image: &mut Image, call: Call<'_>) -> u32
    ensures { ImageStep image.old (call_as call.entry) (sees result image.new) image.new }
{
    match call {
        Call::Open(d) => botskhela_open(image, d.year, d.month, d.day, d.left),
        Call::Sheet(f) => botskhela_sheet(image, f.product, f.months, f.settlements),
        Call::End => botskhela_end(image),
        Call::Convert => botskhela_convert(image),
        Call::Check(o) => botskhela_check(image, o.product, o.size, o.month, o.price),
    }
}

// A check with its span, which is a check of the lists too.
pub fn respond_span(image: &Image, o: Order) -> Spanned
    ensures { ImageStep image.now (question (check o.product o.size o.month o.price)) (sees result.answer image.now) image.now }
{
    botskhela_check_span(image, o.product, o.size, o.month, o.price)
}
