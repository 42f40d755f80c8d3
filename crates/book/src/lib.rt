// The book: what it holds, what that means as a Record, whether it is sound, and a fresh one; and the groups of products.
#![tactic(auto)]

use grain::{Limit, PRODUCT_COUNT};
use record::{Day, GROUP_COUNT};
use sheets::Sheet;
use windows::Windows;

mod dates;
mod editions;
mod founding;
mod groups;
mod limits;
mod phase;
mod shape;
mod soundness;
mod standing;

pub use dates::{OpenDay, trade_date};
pub use editions::{EDITION_2014, EDITION_2023, has_marks};
pub use founding::found;
pub use groups::{group_of, products_before};
pub use shape::FORMAT;
pub use soundness::{are_all_in, is_true_day};
pub use standing::Standing;

// What a call looks at of the struct of include/botskhela.h, its first part, as C keeps it.
// C can lend any content: one of another format, or with a flag that is none, is shown as of no edition, and soundness judges the rest.
#[repr(C)]
#[derive(Clone, Copy, Debug, PartialEq, Eq)]
pub struct Book {
    pub format: u32,
    // The edition of the rule, by year.
    pub edition: u32,
    // 1 while a day is open, the last opened one, else 0: a flag of its own, as the Record has it, since that day stays here when it has ended.
    pub is_open: u32,
    // The last opened day; zeros before the first.
    pub day: Day,
    pub limits: [Limit; PRODUCT_COUNT],
    pub standings: [Standing; GROUP_COUNT],
    pub windows: Windows,
    // The sheets that are in on the open day.
    pub today: [Sheet; PRODUCT_COUNT],
    // The sheets of the last ended day.
    pub last: [Sheet; PRODUCT_COUNT],
}
