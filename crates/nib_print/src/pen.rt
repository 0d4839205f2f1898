// Writing: bytes gather on a pen's paper and go out when it is full or when `flush` is asked, so that a line costs no call of its
// own.
ghost use Rattle.std.specs.Prelude.{◌≡◌, take};
ghost use Rattle.io.specs.Counts.{IsPrefixLen};

use crate::bytes::Bytes;
use crate::input::printable;
use nib_words::desk::Desk;
use std::io::{Cursor, Error, Stderr, Write};
use std::str::from_utf8;

// Where a pen writes.
#[derive(Clone, Copy)]
pub enum To {
    Output,
    Errors,
}

#[derive(Clone, Copy)]
pub struct Pen {
    rt: HostRuntime,
    to: To,
    // the bytes that wait
    paper: Bytes<65536>,
    // the column that the next byte stands in
    column: usize,
    // every write was taken; no Result, since it lasts from write to write
    good: bool,
}

// The system's words for an error alone, as C's strerror has them: what std writes before the error's number.
fn put_words(to: &mut Stderr, e: &Error) {
    let mut room = Cursor::new([0u8; 320]);
    let _ = write!(room, "{e}");
    let n = room.position() as usize;
    let text = room.into_inner();
    if let Ok(all) = from_utf8(&text[..count(n, &text)]) {
        let words = match all.split_once(" (os error ") {
            Some((front, _)) => front,
            None => all,
        };
        let _ = to.write_all(words.as_bytes());
    }
}

// `n`, or the slice's length where that is less.
pub fn count(n: usize, s: &[u8]) -> usize
    ensures { IsPrefixLen result s.now }
{
    n.min(s.len())
}

// A line on standard error has said why a command stops. The line needs the path, which no error could hold without a heap, so
// it is written where the call failed.
#[derive(Clone, Copy)]
pub struct Told;

// The first `n` bytes of a slice, or all of it where it has fewer.
pub fn front(s: &[u8], n: usize) -> &[u8]
    ensures { result.now ≡ take n s.now }
{
    if n < s.len() { &s[..n] } else { s }
}

// The same, to write on. The test programs have it too: they stand on no crate of nib's.
pub fn front_mut(s: &mut [u8], n: usize) -> &mut [u8] {
    let k = count(n, s);
    &mut s[..k]
}

// A line of the program's own on standard error: the path, and words that end it.
pub fn complain(rt: HostRuntime, path: &[u8], words: &[u8]) -> Told {
    let mut to = rt.stderr();
    let _ = to.write_all(b"nib: ");
    let _ = to.write_all(path);
    let _ = to.write_all(words);
    Told
}

// Likewise with a number among its words.
pub fn complain_of(rt: HostRuntime, path: &[u8], words: &[u8], n: usize, more: &[u8]) -> Told {
    let told = complain(rt, path, words);
    let mut to = rt.stderr();
    let _ = write!(to, "{n}");
    let _ = to.write_all(more);
    told
}

// A line on standard error: the path, a colon, and why a call on it failed.
pub fn failed(rt: HostRuntime, path: &[u8], e: &Error) -> Told {
    let told = complain(rt, path, b": ");
    let mut to = rt.stderr();
    put_words(&mut to, e);
    let _ = to.write_all(b"\n");
    told
}

// A hex digit, of a number's last four bits.
fn digit(d: u8) -> u8 {
    let d = d % 16;
    if d < 10 { b'0' + d } else { b'A' + (d - 10) }
}

impl Pen {
    pub fn new(rt: HostRuntime, to: To) -> Pen {
        Pen {
            rt,
            to,
            paper: Bytes::new(),
            column: 0,
            good: true,
        }
    }

    // Whether every write was taken.
    pub fn is_good(&self) -> bool {
        self.good
    }

    fn write_out(&self) -> Result<(), Error> {
        let waiting = self.paper.as_slice();
        match self.to {
            To::Output => self.rt.stdout().write_all(waiting),
            To::Errors => self.rt.stderr().write_all(waiting),
        }
    }

    // What waits goes out. After a write that failed, and was told of, nothing more is written.
    pub fn flush(&mut self) {
        if self.good {
            if let Err(e) = self.write_out() {
                let _ = failed(self.rt, b"standard output", &e);
                self.good = false;
            }
        }
        self.paper.clear();
    }

    pub fn put(&mut self, b: u8) {
        if self.paper.is_full() {
            self.flush();
        }
        self.paper.push(b);
        self.column = if b == b'\n' {
            0
        } else {
            self.column.saturating_add(1)
        };
    }

    pub fn text(&mut self, s: &[u8]) {
        for &b in s {
            self.put(b);
        }
    }

    // One blank, and as many as lead from where the line stands to the column.
    pub fn pad(&mut self, column: usize) {
        let from = self.column;
        self.put(b' ');
        for _ in from..column {
            self.put(b' ');
        }
    }

    pub fn number(&mut self, n: usize) {
        let mut digits = [0u8; 20];
        let k = io::decimal(n as u64, &mut digits);
        self.text(&digits[..k]);
    }

    // Bytes as a terminal can show them.
    pub fn shown(&mut self, s: &[u8]) {
        for &b in s {
            self.put(printable(b));
        }
    }

    // A line's first words, and blanks up to where what they name stands.
    pub fn label(&mut self, words: &[u8]) {
        self.text(words);
        self.pad(18);
    }

    // Blanks and digits, six places at least.
    pub fn ranked(&mut self, n: usize) {
        let mut digits = [0u8; 20];
        let k = io::decimal(n as u64, &mut digits);
        for _ in k..6 {
            self.put(b' ');
        }
        self.text(&digits[..k]);
    }

    // A byte as two hex digits.
    pub fn hex(&mut self, b: u8) {
        self.put(digit(b / 16));
        self.put(digit(b));
    }

    // A byte as the requirements write it, as 3Ch.
    pub fn byte(&mut self, b: u8) {
        self.hex(b);
        self.put(b'h');
    }

    // Two bytes likewise, as 0102h.
    pub fn wide(&mut self, n: u16) {
        self.hex((n / 256) as u8);
        self.byte((n % 256) as u8);
    }

    pub fn end_line(&mut self) {
        self.put(b'\n');
    }

    pub fn with_number(&mut self, words: &[u8], n: usize) {
        self.text(words);
        self.number(n);
    }

    // What `say` puts down on a desk with room for the longest words.
    pub fn words<F: FnOnce(&mut Desk)>(&mut self, say: F)
        requires { F.IsAlwaysCallable say }
    {
        let mut room = [0u8; 512];
        let mut desk = Desk {
            room: &mut room,
            at: 0,
        };
        say(&mut desk);
        let n = desk.at;
        self.text(front(&room, n));
    }
}
