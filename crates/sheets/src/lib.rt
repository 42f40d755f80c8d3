// One product's sheet: look-up, and the tests over its contracts. The leaves of the book.
// Every function here takes any sheet: one whose count is beyond its 16 places is read in all of them.
#![tactic(auto)]

mod arrays;
mod changes;
mod lookup;
mod sheet;
mod tests;

pub use arrays::is_misshapen;
pub use sheet::Sheet;
