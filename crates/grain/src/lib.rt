// The arithmetic of CBOT daily price limits: products, ticks, amounts, dates, spot, the judgement of a price and the bare check.
// It knows no book. Every function that is exported here is total: it has no `requires`, and answers every u32; a number that a table lacks
// is 0, as in the rule's own functions (specs/).
#![tactic(auto)]

mod amounts;
mod bare;
mod check;
mod dates;
mod laws;
mod margin;
mod prices;
mod products;
mod refusals;
mod spot;
mod verdicts;

pub use amounts::{
    Limit, MAX_FOUNDING, MAX_LIMIT, WINDOW_LENGTH, expanded, is_fit_amount, is_fit_founding,
};
pub use bare::{bare_check, checked_number};
pub use check::{Span, Verdict, judge};
pub use dates::{is_date, month_length};
pub use laws::{every_span, step_rounding};
pub use margin::{DateFacts, date_facts, expanded_limit, season_limits};
pub use prices::{MAX_PRICE, are_joined_on_tick, are_on_tick, is_on_tick, is_settlement, join};
pub use products::{
    PRODUCT_COUNT, first_contracts, is_last_crop_month, is_product, is_traded, tick, traded_from,
};
pub use refusals::Refusal;
pub use spot::TradeDate;
