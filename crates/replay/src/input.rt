// The input, read a block at a time into places of its own. Of a line no more has to be there than the word that is read.
ghost use Rattle.std.specs.Prelude.{◌≤◌};

use memchr::{memchr, memchr2};
use std::io;
use std::io::{ErrorKind, Read};

const BLOCK: usize = 65536;

// No word of a call has as many bytes, but for zeros in front of a number: `settlements` has eleven, and a number ten digits.
const TOO_LONG: usize = 12;

// How many bytes are looked through one by one before a search for one is made.
const NEAR: usize = 16;

#[derive(Drop)]
pub(crate) struct Input<R> {
    reader: R,
    block: [u8; BLOCK],
    // Ahead are the bytes of the block from `next` up to `end`.
    next: usize,
    end: usize,
    has_ended: bool,
    // The first read that failed, after which no more are made.
    failed: Option<io::Error>,
    // No further word is the line's.
    is_line_over: bool,
}

impl<R: Read> Input<R> {
    pub(crate) fn new(reader: R) -> Input<R> {
        Input {
            reader,
            block: [0; BLOCK],
            next: 0,
            end: 0,
            has_ended: false,
            failed: None,
            is_line_over: true,
        }
    }

    fn ahead(&self) -> &[u8] {
        self.block.get(self.next..self.end).unwrap_or(&[])
    }

    fn take(&mut self, n: usize) {
        self.next = self.next.saturating_add(n);
    }

    // A word as long as the block is made shorter, and is as little or as much a word of a call as before: all zeros in front but one go,
    // and of what is too long all the same the first bytes stay.
    fn shorten(&mut self) -> usize
        ensures { result ≤ 65536 }
    {
        let zeros = self.block.iter().position(|b| *b != b'0').unwrap_or(BLOCK);
        let from = zeros.saturating_sub(1).min(BLOCK - 1);
        self.block.copy_within(from.., 0);
        (BLOCK - from).min(TOO_LONG)
    }

    // Brings what is ahead to the front of the block, with room behind it, and gives its length.
    fn make_room(&mut self) -> usize
        ensures { result ≤ 65536 }
    {
        let end = self.end.min(BLOCK);
        let next = self.next.min(end);
        if end - next == BLOCK {
            return self.shorten();
        }
        self.block.copy_within(next..end, 0);
        end - next
    }

    // Reads on behind what is ahead; false where the input has ended or the read failed. One that is interrupted may be made again.
    fn more(&mut self) -> bool {
        if self.has_ended {
            return false;
        }
        let kept = self.make_room();
        self.next = 0;
        self.end = kept;
        match self.reader.read(&mut self.block[kept..]) {
            Ok(n) => {
                self.end = kept.saturating_add(n);
                self.has_ended = n == 0;
            }
            Err(e) => {
                if e.kind() != ErrorKind::Interrupted {
                    self.has_ended = true;
                    self.failed = Some(e);
                }
            }
        }
        !self.has_ended
    }

    // The next byte, where there is one.
    pub(crate) fn peek(&mut self) -> Option<u8> {
        // A proved loop has to end, so it counts up to a number that no input reaches.
        for _ in 0..u64::MAX {
            if let Some(b) = self.ahead().first() {
                return Some(*b);
            }
            if !self.more() {
                break;
            }
        }
        None
    }

    // Passes over a byte that was seen.
    pub(crate) fn pass(&mut self) {
        self.take(1);
    }

    pub(crate) fn begin_line(&mut self) {
        self.is_line_over = false;
    }

    pub(crate) fn is_line_over(&self) -> bool {
        self.is_line_over
    }

    // Kept apart, or every line pays for it.
    #[inline(never)]
    fn pass_line(&mut self) {
        for _ in 0..u64::MAX {
            let ahead = self.ahead();
            if let Some(n) = memchr(b'\n', ahead) {
                self.take(n + 1);
                break;
            }
            self.next = self.end;
            if !self.more() {
                break;
            }
        }
    }

    // Passes over what is left of the line: the library's search pays where that is long alone.
    pub(crate) fn end_line(&mut self) {
        if self.is_line_over {
            return;
        }
        self.is_line_over = true;
        let ahead = self.ahead();
        let near = &ahead[..ahead.len().min(NEAR)];
        match near.iter().position(|b| *b == b'\n') {
            Some(n) => self.take(n + 1),
            None => self.pass_line(),
        }
    }

    // Reads on until a word is whole ahead. The input's end ends its last one, as a newline does. Kept apart, or every word pays for it.
    #[inline(never)]
    fn rest_of_word(&mut self) -> usize {
        for _ in 0..u64::MAX {
            if !self.more() {
                break;
            }
            let ahead = self.ahead();
            if let Some(n) = memchr2(b' ', b'\n', ahead) {
                self.is_line_over = matches!(ahead.get(n), Some(b'\n'));
                return n;
            }
        }
        self.is_line_over = true;
        self.ahead().len()
    }

    // Most words are a few bytes long, and there: the library's search pays for a long one alone.
    #[inline(always)]
    fn word_length(&mut self) -> usize {
        let ahead = self.ahead();
        if let Some(n) = ahead.iter().position(|b| *b == b' ' || *b == b'\n') {
            self.is_line_over = ahead[n] == b'\n';
            return n;
        }
        self.rest_of_word()
    }

    // The next word of the line, where there is one: the bytes up to a space or the line's end, which is passed over too.
    pub(crate) fn word(&mut self) -> Option<&[u8]> {
        if self.is_line_over {
            return None;
        }
        let n = self.word_length();
        let start = self.next;
        self.take(n);
        let end = self.next;
        self.take(1);
        self.block.get(start..end)
    }

    // The first read that failed, if one did.
    pub(crate) fn failure(&mut self) -> io::Result<()> {
        match self.failed.take() {
            Some(e) => Err(e),
            None => Ok(()),
        }
    }
}
