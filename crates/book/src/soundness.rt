// Whether a book is sound: every field in its range, and the parts in agreement.
ghost use Rattle.std.specs.Prelude.{◌≡◌, ◌<◌, leb, length, get_or};
ghost use Rattle.std.specs.List.{list_all};
ghost use Rattle.grain.specs.Amounts.{window_length};
ghost use Rattle.grain.specs.Lists.{◌and◌, every};
ghost use Rattle.grain.specs.Prices.{is_settlement};
ghost use Rattle.grain.specs.Products.{product_count};
ghost use Rattle.record.specs.Opening.{is_true_day};
ghost use Rattle.record.specs.Sound.{is_sound_date, is_sound};
ghost use Rattle.windows.specs.Windows.{shown};
ghost use Rattle.book.specs.Book.{no_limit, view};
ghost use Rattle.book.specs.Numbers.{all_products};
ghost use Rattle.book.specs.Soundness.{is_mark_sound, is_sound_limit, are_settlements_sound, is_there, is_missing, are_all_in, are_last_sound};

use crate::editions::{has_marks, is_edition};
use crate::{Book, Standing};
use grain::{Limit, PRODUCT_COUNT};
use record::Day;
use sheets::Sheet;
use windows::Windows;

// A date, with left at most the days remaining in its month.
pub fn is_true_day(d: Day) -> bool
    ensures { result ≡ is_true_day d }
{
    grain::date_facts(d.year, d.month, d.day).is_ok_and(|facts| d.left <= facts.remaining)
}

// A date where a day is open.
fn is_sound_date(opened: Option<Day>, is_open: bool) -> bool
    ensures { result ≡ is_sound_date opened is_open }
{
    match opened {
        Some(day) => is_true_day(day),
        None => !is_open,
    }
}

// A mark only on an expanded group, and none in an edition without marks.
fn is_mark_sound(has_marks: bool, standing: &Standing) -> bool
    ensures { result ≡ is_mark_sound has_marks standing.now }
{
    if !standing.is_marked() {
        return true;
    }
    if !standing.is_expanded() {
        return false;
    }
    has_marks
}

fn are_marks_sound(has_marks: bool, standings: &[Standing]) -> bool
    ensures { result ≡ list_all (is_mark_sound has_marks) standings.now }
{
    standings.iter().all(|s| is_mark_sound(has_marks, s))
}

fn is_sound_limit(product: u32, limit: Limit) -> bool
    ensures { result ≡ is_sound_limit product limit }
{
    if !grain::is_fit_amount(product, limit.initial) {
        return false;
    }
    limit.expanded == grain::expanded(product, limit.initial)
}

// In a loop of their own: the compiler unrolls it, so that each step is a number that it knows, and no division is left.
fn are_limits_sound(limits: &[Limit; PRODUCT_COUNT]) -> bool
    ensures { result ≡ every (λ p. is_sound_limit p (get_or limits.now p no_limit)) all_products }
{
    limits
        .iter()
        .enumerate()
        .all(|(p, limit)| is_sound_limit(p as u32, *limit))
}

fn is_sound_window(windows: &Windows, p: usize) -> bool
    requires { p < product_count }
    ensures { result ≡ (leb (length (shown windows.now p)) window_length and every (is_settlement p) (shown windows.now p)) }
{
    if !windows.fits(p) {
        return false;
    }
    grain::are_on_tick(grain::tick(p as u32, 0), windows.kept(p))
}

// A product's window and its two sheets.
fn are_settlements_sound(b: &Book, p: usize) -> bool
    requires { p < product_count }
    ensures { result ≡ are_settlements_sound b.now p }
{
    let product = p as u32;
    is_sound_window(&b.windows, p) && b.today[p].is_sound(product) && b.last[p].is_sound(product)
}

fn are_products_sound(b: &Book) -> bool
    ensures { result ≡ every (are_settlements_sound b.now) all_products }
{
    // No chain: the compiler makes more instructions of `all` (docs/MEASURED.md).
    for p in 0..PRODUCT_COUNT {
        if !are_settlements_sound(b, p) {
            return false;
        }
    }
    true
}

// The sheets are there, each of them.
pub fn are_all_in(sheets: &[Sheet]) -> bool
    ensures { result ≡ list_all is_there sheets.now }
{
    sheets.iter().all(|s| !s.is_none())
}

fn are_missing(sheets: &[Sheet]) -> bool
    ensures { result ≡ list_all is_missing sheets.now }
{
    sheets.iter().all(|s| s.is_none())
}

// The last ended sheets are all there, with a date, or none is.
fn are_last_sound(opened: Option<Day>, last: &[Sheet]) -> bool
    ensures { result ≡ are_last_sound opened last.now }
{
    if are_missing(last) {
        return true;
    }
    if opened.is_none() {
        return false;
    }
    are_all_in(last)
}

impl Book {
    // The eight sheets of the open day are there.
    pub fn are_all_in(&self) -> bool
        ensures { result ≡ are_all_in self.now }
    {
        are_all_in(&self.today)
    }

    // Every field in its range, and the parts in agreement.
    #[tactic(auto, using(crate::proofs::Shown::sound_tests))]
    pub fn is_sound(&self) -> bool
        ensures { result ≡ is_sound (view self.now) }
    {
        self.is_book()
            && is_edition(self.edition)
            && is_sound_date(self.opened(), self.has_open_day())
            && are_marks_sound(has_marks(self.edition), &self.standings)
            && are_limits_sound(&self.limits)
            && are_products_sound(self)
            && (self.has_open_day() || are_missing(&self.today))
            && are_last_sound(self.opened(), &self.last)
    }
}
