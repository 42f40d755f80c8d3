// The answers, written a block at a time from places of their own.
use arrayvec::ArrayVec;
use std::fmt::{Display, Write as _};
use std::io::{Error, ErrorKind};
use std::{fmt, io};

const BLOCK: usize = 65536;

#[derive(Drop)]
pub(crate) struct Output<W> {
    writer: W,
    waiting: ArrayVec<u8, BLOCK>,
    // The write that failed, at which the run ends.
    failed: Option<Error>,
}

impl<W: io::Write> Output<W> {
    pub(crate) fn new(writer: W) -> Output<W> {
        Output {
            writer,
            waiting: ArrayVec::new(),
            failed: None,
        }
    }

    // What a write failed at does not wait any longer, so that no byte is written twice.
    pub(crate) fn flush(&mut self) -> io::Result<()> {
        let written = self.writer.write_all(self.waiting.as_slice());
        self.waiting.clear();
        written
    }

    // Takes as many bytes as there is room for, and gives the others.
    fn fill<'a>(&mut self, bytes: &'a [u8]) -> &'a [u8] {
        let (first, rest) = bytes.split_at(bytes.len().min(self.waiting.remaining_capacity()));
        self.waiting.try_extend_from_slice(first).ok();
        rest
    }

    // Bytes for which there is no room: the block is filled with the first of them, and written. Kept apart, or every piece pays for it.
    #[inline(never)]
    fn write_over(&mut self, bytes: &[u8]) -> io::Result<()> {
        let mut rest = self.fill(bytes);
        // A proved loop has to end: a block that was written has room for one byte at least.
        for _ in 0..bytes.len() {
            if rest.is_empty() {
                break;
            }
            self.flush()?;
            rest = self.fill(rest);
        }
        Ok(())
    }

    pub(crate) fn text(&mut self, text: &str) -> io::Result<()> {
        let bytes = text.as_bytes();
        if self.waiting.try_extend_from_slice(bytes).is_ok() {
            return Ok(());
        }
        self.write_over(bytes)
    }

    pub(crate) fn line<D: Display + Drop>(&mut self, answer: D) -> io::Result<()> {
        match writeln!(self, "{answer}") {
            Ok(()) => Ok(()),
            Err(_) => Err(
                self.failed
                    .take()
                    .unwrap_or_else(|| Error::from(ErrorKind::Other)),
            ),
        }
    }
}

impl<W: io::Write> fmt::Write for Output<W> {
    fn write_str(&mut self, s: &str) -> fmt::Result {
        match self.text(s) {
            Ok(()) => Ok(()),
            Err(e) => {
                self.failed = Some(e);
                Err(fmt::Error)
            }
        }
    }
}
