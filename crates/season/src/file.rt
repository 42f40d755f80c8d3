// The season file: the limits that it gives, for any bytes.
ghost use Rattle.std.specs.Prelude.{◌≡◌, ◌*◌, length};
ghost use Rattle.std.specs.List.{list_all};
ghost use Rattle.grain.specs.Lists.{is_ascending};
ghost use Rattle.season.specs.SeasonFile.{file_words, words_from, is_date_word, line_as, season_line};

use grain::{Limit, Refusal, WINDOW_LENGTH};
use std::array;

// A file is the product, the count, the dates and the settlements, 32 bits a word. These are the words at which they begin.
const PRODUCT: usize = 0;

const COUNT: usize = 1;

const DATES: usize = 2;

const SETTLEMENTS: usize = DATES + WINDOW_LENGTH;

const FILE_WORDS: usize = SETTLEMENTS + WINDOW_LENGTH;

pub const FILE_BYTES: usize = 4 * FILE_WORDS;

// A product with the limits of its new season.
#[derive(Clone, Copy, Debug, PartialEq, Eq)]
pub struct SeasonLimits {
    pub product: u32,
    pub limits: Limit,
}

// The words of a file, little-endian.
fn words_of(file: &[u8]) -> [u32; FILE_WORDS]
    requires { length file.now ≡ 4 * file_words }
    ensures { result ≡ words_from file.now 0 file_words }
{
    let (quads, _) = file.as_chunks::<4>();
    array::from_fn(|k| u32::from_le_bytes(quads[k]))
}

#[tactic(auto, unfolding(crate::specs::SeasonFile::is_date_word))]
fn is_date_word(word: u32) -> bool
    ensures { result ≡ is_date_word word }
{
    grain::is_date(word / 10000, word / 100 % 100, word % 100)
}

fn are_dates(words: &[u32]) -> bool
    ensures { result ≡ list_all is_date_word words.now }
{
    words.iter().all(|word| is_date_word(*word))
}

fn is_ascending(words: &[u32]) -> bool
    ensures { result ≡ is_ascending words.now }
{
    words.is_sorted_by(|before, after| before < after)
}

pub fn limits_in(file: &[u8]) -> Result<SeasonLimits, Refusal>
    ensures { line_as result ≡ season_line file.now }
{
    if file.len() != FILE_BYTES {
        return Err(Refusal::Misshapen);
    }
    let words = words_of(file);
    if words[COUNT] != WINDOW_LENGTH as u32 {
        return Err(Refusal::Misshapen);
    }
    let product = words[PRODUCT];
    if !grain::is_product(product) {
        return Err(Refusal::NoSuchProduct);
    }
    let dates = &words[DATES..SETTLEMENTS];
    if !are_dates(dates) {
        return Err(Refusal::NoSuchDate);
    }
    if !is_ascending(dates) {
        return Err(Refusal::NoSuchDate);
    }
    let limits = grain::season_limits(product, &words[SETTLEMENTS..])?;
    Ok(SeasonLimits { product, limits })
}
