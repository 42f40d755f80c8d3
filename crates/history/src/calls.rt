// The calls on a book as values: one function makes any of them, and one makes a list of them.
ghost use Rattle.history.specs.Calls.{call_as, told};
ghost use Rattle.history.specs.Step.{Step};
ghost use Rattle.history.specs.Runs.{Runs};

use book::Book;
use grain::{PRODUCT_COUNT, Refusal, Verdict};
use record::{Day, Event, GROUP_COUNT};

// The numbers of an order.
#[derive(Clone, Copy, Debug, PartialEq, Eq)]
pub struct Order {
    pub product: u32,
    pub size: u32,
    pub month: u32,
    pub price: u32,
}

// A product's sheet as two arrays.
#[derive(Clone, Copy, Debug, PartialEq, Eq)]
pub struct Filing<'a> {
    pub product: u32,
    pub months: &'a [u32],
    pub settlements: &'a [u32],
}

#[derive(Clone, Copy, Debug, PartialEq, Eq)]
pub enum Call<'a> {
    Open(Day),
    Sheet(Filing<'a>),
    End,
    Convert,
    Check(Order),
}

// What an accepted call answers.
#[derive(Clone, Copy, Debug, PartialEq, Eq)]
pub enum Reply {
    // Which products have new limits.
    Opened([bool; PRODUCT_COUNT]),
    Filed,
    Ended([Event; GROUP_COUNT]),
    Converted,
    Checked(Verdict),
}

// Makes a call.
pub fn respond(b: &mut Book, call: Call<'_>) -> Result<Reply, Refusal>
    ensures { Step b.old (call_as call.entry) (told result) b.new }
{
    match call {
        Call::Open(day) => opening::opening(b, day).map(Reply::Opened),
        Call::Sheet(f) => {
            let filed = filing::sheet(b, f.product, f.months, f.settlements);
            filed.map(|()| Reply::Filed)
        }
        Call::End => ending::end(b).map(Reply::Ended),
        Call::Convert => converting::convert(b).map(|()| Reply::Converted),
        Call::Check(o) => {
            let checked = checking::check(b, o.product, o.size, o.month, o.price);
            checked.map(Reply::Checked)
        }
    }
}

// Makes calls in order, as many as there are places for their answers.
pub fn run(b: &mut Book, calls: &[Call<'_>], replies: &mut [Result<Reply, Refusal>])
    ensures { Runs b.old calls.now replies.old replies.new b.new }
{
    for i in 0..calls.len().min(replies.len()) {
        replies[i] = respond(b, calls[i]);
    }
}
