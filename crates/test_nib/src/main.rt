// Every command of nib that takes an input or a file, one after the other, as data/commands says, on the files of data/.
// `nib` itself runs `demo`. A line is the command's words, at will a comma and a remark, then " < " and the file that is
// the input.
#![tactic(auto)]

use nib_app::{Words, act};
use nib_args::asked_of;
use nib_files::files::open;
use slices::part_of;
use std::fs::File;
use std::io::{Error, Read};
use test_kit::files::load;
use test_kit::write::text;

// Where `mark` first stands, or the end.
fn place(s: &[u8], mark: u8) -> usize {
    s.iter().position(|&c| c == mark).unwrap_or(s.len())
}

// Word number `n`, one space between them; past the last one there is nothing.
fn word(s: &[u8], n: usize) -> &[u8] {
    s.split(|&c| c == b' ').nth(n).unwrap_or(b"")
}

// What a command reads: a file, or an input that could not be opened. One type for both, since the stack has no room for the buffers of
// two calls of `act`.
#[derive(Drop)]
enum Input {
    Named(File),
    Closed,
}

// The system's number of 'Bad file descriptor'.
const EBADF: i32 = 9;

impl Read for Input {
    fn read(&mut self, buf: &mut [u8]) -> Result<usize, Error> {
        match self {
            Input::Named(file) => file.read(buf),
            Input::Closed => Err(Error::from_raw_os_error(EBADF)),
        }
    }
}

// A command by its words, as nib takes its own.
fn command(rt: HostRuntime, s: &[u8], input: &mut Input) {
    let words = Words {
        second: word(s, 1),
        third: word(s, 2),
        fourth: word(s, 3),
        fifth: word(s, 4),
    };
    let count = s.split(|&c| c == b' ').count();
    let asked = asked_of(
        count.saturating_add(1),
        word(s, 0),
        words.second,
        words.third,
    );
    // what stops a command is told on standard error
    let _ = act(rt, asked, words, input);
}

fn tried(rt: HostRuntime, line: &[u8]) {
    let bar = place(line, b'<');
    let said = part_of(line, 0, bar.wrapping_sub(1));
    text(rt, b"== ");
    text(rt, said);
    text(rt, b"\n");
    let file = part_of(line, bar.saturating_add(2), line.len());
    let mut input = match open(rt, file) {
        Ok(file) => Input::Named(file),
        Err(_) => Input::Closed,
    };
    command(rt, part_of(said, 0, place(said, b',')), &mut input);
}

fn main(rt: HostRuntime) {
    let mut said = [0; 4096];
    let n = load(rt, b"commands", &mut said);
    let lines = said[..n].split_inclusive(|&c| c == b'\n');
    // the first 1,000 lines, far more than there are
    for line in lines.take(1000) {
        tried(rt, line.strip_suffix(b"\n").unwrap_or(line));
    }
}
