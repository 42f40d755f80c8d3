// The line that is written for a file. It has places of its own, so that no memory is asked for and every line fits.
// By `Display` it could fail: what that promises, it promises where every write goes well.
ghost use Rattle.std.specs.Prelude.{◌≡◌, ◌∷◌, ◌++◌, ◌+◌, ◌≤◌, [], decimal};
ghost use Rattle.arrayvec.specs.ArrayString.{array_string_len};
ghost use Rattle.grain.specs.Margin.{gives, refused};
ghost use Rattle.season.specs.SeasonFile.{line_as, values_of};
ghost use Rattle.season.specs.LineText.{line_text};

use crate::file::SeasonLimits;
use arrayvec::ArrayString;
use grain::Refusal;
use itoa::Buffer;

// The longest has three numbers of ten digits, two spaces and the line's end.
pub const LONGEST_LINE: usize = 33;

pub type Text = ArrayString<LONGEST_LINE>;

fn push_number(text: &mut Text, n: u32)
    requires { array_string_len text.old + 10 ≤ 33 }
    ensures bytes { text.new.bytes ≡ text.old.bytes ++ decimal n }
    ensures len { array_string_len text.new ≤ array_string_len text.old + 10 }
{
    text.push_str(Buffer::new().format(n));
}

fn limits_text(limits: &SeasonLimits) -> Text
    ensures { result.bytes ≡ line_text (gives (values_of limits.now)) }
{
    let mut text = Text::new();
    push_number(&mut text, limits.product);
    text.push_str(" ");
    push_number(&mut text, limits.limits.initial);
    text.push_str(" ");
    push_number(&mut text, limits.limits.expanded);
    text.push_str("\n");
    text
}

fn refused_text(number: u32) -> Text
    ensures { result.bytes ≡ line_text (refused number) }
{
    let mut text = Text::new();
    text.push_str("refused ");
    push_number(&mut text, number);
    text.push_str("\n");
    text
}

pub fn text_of(line: Result<SeasonLimits, Refusal>) -> Text
    ensures { result.bytes ≡ line_text (line_as line) }
{
    match line {
        Ok(limits) => limits_text(&limits),
        Err(refusal) => refused_text(u32::from(refusal)),
    }
}
