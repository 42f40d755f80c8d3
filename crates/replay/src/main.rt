// Reads a history of calls from standard input and answers it line by line on standard output.
#![tactic(auto)]

use std::io;
use std::io::{Read, Write};

mod answer;
mod call;
mod input;
mod output;
mod shown;
mod state;

use call::{Line, Name, SheetNumbers};
use input::Input;
use output::Output;
use state::State;

const NOT_A_CALL: &str = "not a call\n";

// A line is read to its end before it is answered; one that a read failed in has no answer.
fn answer_call<R: Read, W: Write>(
    name: Name,
    state: &mut State,
    sheet: &mut SheetNumbers,
    input: &mut Input<R>,
    output: &mut Output<W>,
) -> io::Result<()> {
    let asked = Line::parse(name, input, sheet);
    input.end_line();
    input.failure()?;
    let Some(asked) = asked else {
        return output.text(NOT_A_CALL);
    };
    match state.answer(asked) {
        Ok(answer) => output.line(answer),
        Err(failure) => output.line(failure),
    }
}

// A line needs no more than a look whose first word is no name, or one without the words that it takes, or with words where it takes none.
fn answer_line<R: Read, W: Write>(
    state: &mut State,
    sheet: &mut SheetNumbers,
    input: &mut Input<R>,
    output: &mut Output<W>,
) -> io::Result<()> {
    input.begin_line();
    let name = match input.word() {
        Some(word) => Name::of(word),
        None => None,
    };
    match name {
        Some(name) if name.takes_words() != input.is_line_over() => {
            answer_call(name, state, sheet, input, output)
        }
        _ => {
            input.end_line();
            input.failure()?;
            output.text(NOT_A_CALL)
        }
    }
}

// An empty line and a remark have no answer.
fn answer_all<R: Read, W: Write>(input: &mut Input<R>, output: &mut Output<W>) -> io::Result<()> {
    let mut state = State::default();
    let mut sheet = SheetNumbers::new();
    // A proved loop has to end, so it counts up to a number that no input reaches.
    for _ in 0..u64::MAX {
        match input.peek() {
            None => break,
            Some(b'\n') => input.pass(),
            Some(b'#') => {
                input.begin_line();
                input.end_line();
            }
            Some(_) => answer_line(&mut state, &mut sheet, input, output)?,
        }
    }
    input.failure()
}

// What is answered goes out before a read that failed is told.
fn run<R: Read + Drop, W: Write + Drop>(input: R, output: W) -> io::Result<()> {
    let mut input = Input::new(input);
    let mut output = Output::new(output);
    let answered = answer_all(&mut input, &mut output);
    output.flush()?;
    answered
}

fn main(rt: HostRuntime) -> io::Result<()> {
    run(rt.stdin(), rt.stdout())
}

#[cfg(test)]
mod tests;
