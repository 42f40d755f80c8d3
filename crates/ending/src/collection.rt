// The window of a product after a day: the next July contract from November to 15 April, the new crop's from May to 15 October.
ghost use Rattle.std.specs.Prelude.{◌≡◌, ◌<◌, ◌≤◌, ℕ, get_or};
ghost use Rattle.grain.specs.Amounts.{window_length};
ghost use Rattle.record.specs.Window.{up_to_middle_of, new_crop_month, collected_month, window_by};
ghost use Rattle.grain.specs.Products.{product_count};
ghost use Rattle.book.specs.Book.{no_sheet};
ghost use Rattle.sheets.specs.Sheets.{entries_of};
ghost use Rattle.windows.specs.Windows.{size_in, shown, OthersKept};

use book::OpenDay;
use grain::PRODUCT_COUNT;
use record::Day;
use sheets::Sheet;
use windows::Windows;

// The date is before the month, or in its first 15 days.
fn is_up_to_middle_of(month: u32, d: Day) -> bool
    ensures { result ≡ up_to_middle_of month d }
{
    (d.month, d.day) <= (month, 15)
}

// December, for Soybeans (1) and Rough Rice (7) November.
fn new_crop_month(product: u32) -> u32
    ensures { result ≡ new_crop_month product }
{
    match product {
        1 | 7 => 11,
        _ => 12,
    }
}

// The month whose contract is collected on a day, if windows do not rest.
#[tactic(auto, using(crate::proofs::Months::new_crop_small, crate::proofs::Months::dated), unfolding(record::specs::Window::collected_month, grain::specs::Dates::contract_month))]
pub(crate) fn collected_month(on: &OpenDay, product: u32) -> Option<u32>
    ensures { result ≡ collected_month on.now.day product }
{
    let d = on.day;
    let january = on.date.month + 1 - d.month;
    if 11 <= d.month {
        return Some(january + 18);
    }
    if is_up_to_middle_of(4, d) {
        return Some(january + 6);
    }
    if d.month < 5 {
        return None;
    }
    if !is_up_to_middle_of(10, d) {
        return None;
    }
    Some(january + new_crop_month(product) - 1)
}

// A contract that is not on the sheet empties the window.
fn collect(windows: &mut Windows, p: usize, month: Option<u32>, sheet: &Sheet)
    requires { (p < product_count) × (size_in windows.old p ≤ window_length) }
    ensures own { shown windows.new p ≡ window_by (shown windows.old p) (entries_of sheet.now) month }
    ensures others { OthersKept windows.old p windows.new }
{
    let Some(month) = month else {
        return;
    };
    match sheet.find(month) {
        Some(settlement) => windows.collect(p, settlement),
        None => windows.empty(p),
    }
}

// Of every product, from the day's sheets.
pub(crate) fn collect_all(windows: &mut Windows, on: &OpenDay, today: &[Sheet; PRODUCT_COUNT])
    requires { (p : ℕ) → p < product_count → size_in windows.old p ≤ window_length }
    ensures { (p : ℕ) → p < product_count → shown windows.new p ≡ window_by (shown windows.old p) (entries_of (get_or today.now p no_sheet)) (collected_month on.now.day p) }
{
    for p in 0..PRODUCT_COUNT {
        collect(windows, p, collected_month(on, p as u32), &today[p]);
    }
}
