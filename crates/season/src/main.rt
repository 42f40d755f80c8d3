// Reads a season file from standard input and writes the product with its season limits, or the refusal.
#![tactic(auto)]

ghost use Rattle.std.specs.Prelude.{◌≡◌, ◌<◌, ◌≤◌, length, take, IfOk, IfSome, OnOk};
ghost use Rattle.std.specs.Io.KnownBytes.{Appends, Consumes, IsAtEnd};
ghost use Rattle.season.specs.SeasonFile.{season_line};
ghost use Rattle.season.specs.LineText.{line_text};

use std::io;
use std::io::{Read, Write};

mod file;
mod text;

use file::FILE_BYTES;
use text::Text;

// What is written for a file, to the byte.
fn answer_to(file: &[u8]) -> Text
    ensures { result.bytes ≡ line_text (season_line file.now) }
{
    text::text_of(file::limits_in(file))
}

// Reads until the buffer is full or the input ends, and answers how many bytes it put at the start of the buffer.
fn read_full<R: Read>(input: &mut R, buffer: &mut [u8]) -> io::Result<usize>
    ensures within { IfOk result (λ n. n ≤ length buffer.new) }
    ensures bytes { IfOk result (λ n. Consumes (R.remaining input.old) (R.remaining input.new) (take n buffer.new)) }
    ensures end { IfOk result (λ n. n < length buffer.new → IsAtEnd (R.remaining input.new)) }
{
    let mut done = 0;
    while done < buffer.len() {
        let n = input.read(&mut buffer[done..])?;
        if n == 0 {
            return Ok(done);
        }
        done += n;
    }
    Ok(done)
}

// Reads the file that the input has left, and puts its line on the output, all of it in one call.
// One byte more than a season file has tells a longer input; proofs/Reading.antt shows that no further byte counts.
fn run<R: Read, W: Write>(input: &mut R, output: &mut W) -> io::Result<()>
    ensures { OnOk result (IfSome (R.remaining input.old) (λ file. Appends (W.contents output.old) (W.contents output.new) (line_text (season_line file)))) }
{
    let mut buffer = [0; FILE_BYTES + 1];
    let n = read_full(input, &mut buffer)?;
    let answer = answer_to(&buffer[..n]);
    output.write_all(answer.as_str().as_bytes())
}

fn main(rt: HostRuntime) -> io::Result<()> {
    run(&mut rt.stdin(), &mut rt.stdout())
}

#[cfg(test)]
mod tests;
