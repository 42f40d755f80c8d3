// What a line asks.
use crate::input::Input;
use arrayvec::ArrayVec;
use grain::PRODUCT_COUNT;
use history::{Call, Filing, Order};
use record::{Day, MAX_CONTRACTS};
use std::io::Read;

#[derive(Clone, Copy, Debug)]
pub(crate) enum Line<'a> {
    Found(Founding),
    Call(Call<'a>),
    Bare(BareCheck),
    Book,
}

// The first word of a line.
#[derive(Clone, Copy, Debug, PartialEq, Eq)]
pub(crate) enum Name {
    Found,
    Open,
    Sheet,
    End,
    Convert,
    Check,
    Bare,
    Book,
}

impl Name {
    pub(crate) fn of(word: &[u8]) -> Option<Name> {
        match word {
            b"found" => Some(Name::Found),
            b"open" => Some(Name::Open),
            b"sheet" => Some(Name::Sheet),
            b"end" => Some(Name::End),
            b"convert" => Some(Name::Convert),
            b"check" => Some(Name::Check),
            b"bare" => Some(Name::Bare),
            b"book" => Some(Name::Book),
            _ => None,
        }
    }

    // The others stand alone in their lines.
    pub(crate) fn takes_words(self) -> bool {
        !matches!(self, Name::End | Name::Convert | Name::Book)
    }
}

impl<'a> Line<'a> {
    // What a line of this name asks, none where it is no call. The line has further words just where the name takes some.
    pub(crate) fn parse<R: Read>(
        name: Name,
        input: &mut Input<R>,
        sheet: &'a mut SheetNumbers,
    ) -> Option<Line<'a>> {
        if name == Name::Sheet {
            let filing = sheet.parse(input)?;
            return Some(Line::Call(Call::Sheet(filing)));
        }
        Line::without_sheet(name, input)
    }

    // Apart from a sheet, whose numbers are lent: a match of which one arm lends is not covered by the borrow checker.
    fn without_sheet<R: Read>(name: Name, input: &mut Input<R>) -> Option<Line<'a>> {
        match name {
            Name::Found => Some(Line::Found(Founding::parse(input)?)),
            Name::Open => Some(Line::Call(Call::Open(day(input)?))),
            Name::End => Some(Line::Call(Call::End)),
            Name::Convert => Some(Line::Call(Call::Convert)),
            Name::Check => Some(Line::Call(Call::Check(order(input)?))),
            Name::Bare => Some(Line::Bare(BareCheck::parse(input)?)),
            Name::Book => Some(Line::Book),
            Name::Sheet => None,
        }
    }
}

// The line has no word more.
fn finish<R: Read>(input: &Input<R>) -> Option<()> {
    if input.is_line_over() {
        return Some(());
    }
    None
}

fn with_digit(n: u32, b: u8) -> Option<u32> {
    if !b.is_ascii_digit() {
        return None;
    }
    n.checked_mul(10)?.checked_add(u32::from(b - b'0'))
}

// Digits alone, of a number that fits 32 bits.
fn number(word: &[u8]) -> Option<u32> {
    if word.is_empty() {
        return None;
    }
    word.iter().try_fold(0, |n, b| with_digit(n, *b))
}

// So many numbers, and no word more.
fn numbers<const N: usize, R: Read>(input: &mut Input<R>) -> Option<[u32; N]> {
    let mut all = [0; N];
    for n in &mut all {
        *n = number(input.word()?)?;
    }
    finish(input)?;
    Some(all)
}

#[derive(Clone, Copy, Debug, PartialEq, Eq)]
pub(crate) struct Founding {
    pub edition: u32,
    pub limits: [u32; PRODUCT_COUNT],
}

impl Founding {
    fn parse<R: Read>(input: &mut Input<R>) -> Option<Founding> {
        let edition = number(input.word()?)?;
        let limits = numbers(input)?;
        Some(Founding { edition, limits })
    }
}

fn day<R: Read>(input: &mut Input<R>) -> Option<Day> {
    let [year, month, day, left] = numbers::<4, R>(input)?;
    Some(Day {
        year,
        month,
        day,
        left,
    })
}

fn order<R: Read>(input: &mut Input<R>) -> Option<Order> {
    let [product, size, month, price] = numbers::<4, R>(input)?;
    Some(Order {
        product,
        size,
        month,
        price,
    })
}

// One place more than a sheet has tells too many; those beyond need not be kept.
const PLACES: usize = MAX_CONTRACTS + 1;

type Entries = ArrayVec<u32, PLACES>;

fn keep(entries: &mut Entries, n: u32) {
    if !entries.is_full() {
        entries.push(n);
    }
}

// The numbers of a sheet: its line lends them to the call, and the next one's take their place.
#[derive(Drop)]
pub(crate) struct SheetNumbers {
    months: Entries,
    settlements: Entries,
}

impl SheetNumbers {
    pub(crate) fn new() -> SheetNumbers {
        SheetNumbers {
            months: Entries::new(),
            settlements: Entries::new(),
        }
    }

    // A product, the word months, any number of them, the word settlements, and any number of them.
    fn parse<R: Read>(&mut self, input: &mut Input<R>) -> Option<Filing<'_>> {
        let product = number(input.word()?)?;
        if input.word()? != b"months".as_slice() {
            return None;
        }
        self.months.clear();
        self.settlements.clear();
        let mut are_settlements = false;
        // A proved loop has to end, so it counts up to a number that no input reaches.
        for _ in 0..u64::MAX {
            if input.is_line_over() {
                break;
            }
            match (are_settlements, input.word()?) {
                (false, b"settlements") => are_settlements = true,
                (false, month) => keep(&mut self.months, number(month)?),
                (true, settlement) => keep(&mut self.settlements, number(settlement)?),
            }
        }
        if !are_settlements {
            return None;
        }
        Some(Filing {
            product,
            months: self.months.as_slice(),
            settlements: self.settlements.as_slice(),
        })
    }
}

#[derive(Clone, Copy, Debug, PartialEq, Eq)]
pub(crate) struct BareCheck {
    pub product: u32,
    pub size: u32,
    pub settlement: u32,
    pub amount: u32,
    pub spot: u32,
    pub price: u32,
}

impl BareCheck {
    fn parse<R: Read>(input: &mut Input<R>) -> Option<BareCheck> {
        let [product, size, settlement, amount, spot, price] = numbers::<6, R>(input)?;
        Some(BareCheck {
            product,
            size,
            settlement,
            amount,
            spot,
            price,
        })
    }
}
