// The files of a program's data/.
ghost use Rattle.io.specs.Counts.{IsPrefixLen};

use crate::numbers::{add, count, hex_value, set, wide};
use std::fs::File;
use std::io::{Cursor, Error, ErrorKind, Read, Stderr, Write};
use std::str::from_utf8;

// A path as text: std opens no other.
pub fn text_of(path: &[u8]) -> Result<&str, Error> {
    from_utf8(path).map_err(|_| Error::from(ErrorKind::InvalidFilename))
}

pub fn open(rt: HostRuntime, path: &[u8]) -> Result<File, Error> {
    File::open(&rt, text_of(path)?)
}

// The system's words for an error alone, as C's strerror has them: what std writes before the error's number.
fn put_words(to: &mut Stderr, e: &Error) {
    let mut room = Cursor::new([0u8; 320]);
    let _ = write!(room, "{e}");
    let n = room.position() as usize;
    let text = room.into_inner();
    if let Ok(all) = from_utf8(&text[..count(n, &text)]) {
        let words = all
            .split_once(" (os error ")
            .map_or(all, |(front, _)| front);
        let _ = to.write_all(words.as_bytes());
    }
}

fn tell(rt: HostRuntime, path: &[u8], e: &Error) {
    let mut to = rt.stderr();
    let _ = to.write_all(path);
    let _ = to.write_all(b": ");
    put_words(&mut to, e);
    let _ = to.write_all(b"\n");
}

// Reads until the buffer is full or the input ends; an input that fails has ended.
fn read_full(file: File, to: &mut [u8]) -> usize
    ensures { IsPrefixLen result to.new }
{
    let mut input = file;
    let mut at = 0;
    while at < to.len() {
        match input.read(&mut to[at..]) {
            Ok(0) | Err(_) => break,
            Ok(n) => at += n,
        }
    }
    count(at, to)
}

// As many bytes of a file as there is room for; none, and a line on standard error, where it can't be read.
pub fn load(rt: HostRuntime, path: &[u8], to: &mut [u8]) -> usize
    ensures { IsPrefixLen result to.new }
{
    match open(rt, path) {
        Ok(file) => read_full(file, to),
        Err(e) => {
            tell(rt, path, &e);
            0
        }
    }
}

// How far a text of hex digits has come.
#[derive(Clone, Copy)]
struct Digits {
    // bytes that are whole
    at: usize,
    // the first digit of the next byte, where it has come
    first: Option<u8>,
    // inside a remark, from # to the end of its line
    remark: bool,
}

impl Digits {
    fn digit(&mut self, v: u8, to: &mut [u8]) {
        match self.first.take() {
            None => self.first = Some(v),
            Some(first) => {
                set(to, self.at, add(wide(first) % 16 * 16, wide(v)));
                self.at = add(self.at, 1);
            }
        }
    }

    fn take(&mut self, c: u8, to: &mut [u8]) {
        match c {
            b'#' => self.remark = true,
            b'\n' => self.remark = false,
            _ if self.remark => {}
            _ => {
                if let Some(v) = hex_value(c) {
                    self.digit(v, to);
                }
            }
        }
    }
}

// The bytes that a text says, two hex digits each; spaces, line ends and remarks go for nothing.
pub fn from_hex(said: &[u8], to: &mut [u8]) -> usize {
    let mut digits = Digits {
        at: 0,
        first: None,
        remark: false,
    };
    for c in said {
        digits.take(*c, to);
    }
    digits.at
}

// The bytes of a file of hex digits.
pub fn load_hex(rt: HostRuntime, path: &[u8], to: &mut [u8]) -> usize {
    let mut said = [0u8; 8192];
    let n = load(rt, path, &mut said);
    from_hex(&said[..n], to)
}
