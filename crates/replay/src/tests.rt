use super::*;
use std::io::ErrorKind;
use std::test::Fail;

const HISTORY: &[u8] = b"# A founding, and a day with one sheet.

found 2023 200 400 200 200 240 240 160 100
open 2024 6 24 4
sheet 0 months 24294 24296 settlements 3500 3520
check 0 0 24296 3520
end
 end
bare 0 0 6000 200 0 6200";

const ANSWERS: &[u8] = b"founded
opened 0 0 0 0 0 0 0 0
filed
refused 14
refused 12
not a call
";

const LAST_ANSWER: &[u8] = b"within:5800:6200\n";

#[test]
fn answers_a_history(rt: HostRuntime) -> Result<(), Fail> {
    let mut output = Vec::new(rt.alloc());
    run(HISTORY, &mut output)?;
    let last = output.as_slice().strip_prefix(ANSWERS);
    assert_eq!(rt; last, Some(LAST_ANSWER));
    Ok(())
}

// Each is longer than a block: a remark, zeros in front of a number, and zeros in front of a name, which make it none.
#[test]
fn answers_lines_of_any_length(rt: HostRuntime) -> Result<(), Fail> {
    let input = b"#"
        .as_slice()
        .chain(io::repeat(b'0').take(200_000))
        .chain(b"\nbare 0 0 6000 200 0 ".as_slice())
        .chain(io::repeat(b'0').take(200_000))
        .chain(b"6200\n".as_slice())
        .chain(io::repeat(b'0').take(200_000))
        .chain(b"end\n".as_slice());
    let mut output = Vec::new(rt.alloc());
    run(input, &mut output)?;
    assert_eq!(rt;
        output.as_slice(),
        b"within:5800:6200\nnot a call\n".as_slice()
    );
    Ok(())
}

// So many answers that a block is full to its last byte before the next.
#[test]
fn answers_over_the_end_of_a_block(rt: HostRuntime) -> Result<(), Fail> {
    let mut history = Vec::from_slice(rt.alloc(), b"x\nx\nx\n")?;
    for _ in 0..8190 {
        history.extend_from_slice(b"end\n")?;
    }
    let mut output = Vec::new(rt.alloc());
    run(history.as_slice(), &mut output)?;
    assert_eq!(rt; output.len(), 65553);
    Ok(())
}

// It fails where its bytes end.
#[derive(Drop)]
struct Torn<'a>(&'a [u8]);

impl Read for Torn<'_> {
    fn read(&mut self, buf: &mut [u8]) -> io::Result<usize> {
        if self.0.is_empty() {
            return Err(io::Error::from(ErrorKind::InvalidData));
        }
        self.0.read(buf)
    }
}

#[test]
fn answers_what_was_read_before_a_failure(rt: HostRuntime) -> Result<(), Fail> {
    let mut output = Vec::new(rt.alloc());
    let answered = run(Torn(HISTORY), &mut output);
    assert!(rt; answered.is_err());
    assert_eq!(rt; output.as_slice(), ANSWERS);
    Ok(())
}
