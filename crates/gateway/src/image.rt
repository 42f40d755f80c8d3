// The struct that C keeps: a book, and beside it what the last accepted opening and end answered, which no call looks at.
ghost use Rattle.std.specs.Prelude.{◌≡◌, map};
ghost use Rattle.book.specs.Book.{flag_word};
ghost use Rattle.gateway.specs.Calls.{event_words, fresh_image};

use book::Book;
use grain::PRODUCT_COUNT;
use record::{Event, GROUP_COUNT, Lead};

// The kind, as include/botskhela.h numbers them, and the month and product of the leading contract, 0 where there is none.
#[repr(C)]
#[derive(Clone, Copy, Debug, Default, PartialEq, Eq)]
pub struct EventWords {
    pub kind: u32,
    pub month: u32,
    pub product: u32,
}

#[repr(C)]
#[derive(Clone, Copy, Debug, PartialEq, Eq)]
pub struct Image {
    pub book: Book,
    // 1 for a product that got new limits, else 0.
    pub renewed: [u32; PRODUCT_COUNT],
    pub events: [EventWords; GROUP_COUNT],
}

fn led(kind: u32, at: Lead) -> EventWords
    ensures { result ≡ record { kind = kind; month = at.month; product = at.product } }
{
    EventWords {
        kind,
        month: at.month,
        product: at.product,
    }
}

fn unled(kind: u32) -> EventWords
    ensures { result ≡ record { kind = kind; month = 0; product = 0 } }
{
    EventWords {
        kind,
        ..EventWords::default()
    }
}

fn event_words(event: Event) -> EventWords
    ensures { result ≡ event_words event }
{
    match event {
        Event::Quiet => unled(0),
        Event::Triggered(at) => led(1, at),
        Event::Held(at) => led(2, at),
        Event::Reverted => unled(3),
        Event::Raised(at) => led(4, at),
    }
}

fn flag_word(flag: bool) -> u32
    ensures { result ≡ flag_word flag }
{
    u32::from(flag)
}

pub(crate) fn renewed_words(renewed: &[bool; PRODUCT_COUNT]) -> [u32; PRODUCT_COUNT]
    ensures { result ≡ map flag_word renewed.now }
{
    renewed.map(|r| flag_word(r))
}

pub(crate) fn events_words(events: &[Event; GROUP_COUNT]) -> [EventWords; GROUP_COUNT]
    ensures { result ≡ map event_words events.now }
{
    events.map(|e| event_words(e))
}

impl Image {
    // A fresh book, where no call has answered yet.
    pub(crate) fn of(book: Book) -> Image
        ensures { result ≡ fresh_image book }
    {
        Image {
            book,
            renewed: [0; PRODUCT_COUNT],
            events: [EventWords::default(); GROUP_COUNT],
        }
    }
}
