// What is read and compared, counted; a mismatch is a line.
use crate::reading::Word;
use std::fmt;
use std::fmt::Display;
use test_kit::numbers::get;

// What is compared byte for byte.
#[derive(Clone, Copy)]
pub enum Buffer {
    Array,
    Registers,
    Counts,
    Replies,
}

// What a comparison is of.
#[derive(Clone, Copy)]
pub enum Item {
    PowerOn,
    Run,
    // the reply to an event, by its number in the word
    Event(usize),
    // a reply in a cell
    Reply(usize),
    // how many bytes a refused event changed
    Changed,
    Byte(Buffer, usize),
}

impl Display for Item {
    fn fmt<W: fmt::Write>(&self, f: &mut fmt::Formatter<W>) -> fmt::Result {
        match self {
            Item::PowerOn => f.write_str("power-on 0"),
            Item::Run => f.write_str("run 0"),
            Item::Event(i) => write!(f, "event {i}"),
            Item::Reply(i) => write!(f, "reply {i}"),
            Item::Changed => f.write_str("bytes changed 0"),
            Item::Byte(Buffer::Array, i) => write!(f, "array byte {i}"),
            Item::Byte(Buffer::Registers, i) => write!(f, "register byte {i}"),
            Item::Byte(Buffer::Counts, i) => write!(f, "count {i}"),
            Item::Byte(Buffer::Replies, i) => write!(f, "reply byte {i}"),
        }
    }
}

#[derive(Clone, Copy)]
pub struct Tally {
    pub states: usize,
    pub cells: usize,
    pub cases: usize,
    pub power_ons: usize,
    pub runs: usize,
    pub replies: usize,
    pub bytes: usize,
    // refused cells that are looked at for what they changed
    pub kept: usize,
    // expectations that are wrong on purpose, and found so
    pub found: usize,
    pub mismatches: usize,
    // the case's expectations are wrong on purpose
    pub wrong: bool,
}

fn one_more(n: &mut usize) {
    *n = n.wrapping_add(1);
}

impl Tally {
    pub fn new() -> Tally {
        Tally {
            states: 0,
            cells: 0,
            cases: 0,
            power_ons: 0,
            runs: 0,
            replies: 0,
            bytes: 0,
            kept: 0,
            found: 0,
            mismatches: 0,
            wrong: false,
        }
    }

    // What is counted, by its place in the summary.
    pub fn set(&mut self, place: usize, n: usize) {
        match place {
            0 => self.states = n,
            1 => self.cells = n,
            2 => self.cases = n,
            3 => self.power_ons = n,
            4 => self.runs = n,
            5 => self.replies = n,
            6 => self.bytes = n,
            7 => self.kept = n,
            8 => self.found = n,
            9 => self.mismatches = n,
            _ => {}
        }
    }

    pub fn begin_state(&mut self) {
        one_more(&mut self.states);
        self.wrong = false;
    }

    pub fn begin_case(&mut self) {
        one_more(&mut self.cases);
        self.wrong = false;
    }

    // What is wrong on purpose is not counted among the rest.
    pub fn begin_cell(&mut self) {
        if !self.wrong {
            one_more(&mut self.cells);
        }
    }

    // A line that is not written as the table's lines are.
    pub fn unreadable(&mut self, rt: HostRuntime, line: usize, c: u8) {
        one_more(&mut self.mismatches);
        let _ = println!(rt; "line {line}: unreadable character {c}");
    }

    fn count(&mut self, item: Item) {
        one_more(match item {
            Item::PowerOn => &mut self.power_ons,
            Item::Run => &mut self.runs,
            Item::Event(_) | Item::Reply(_) => &mut self.replies,
            Item::Changed => &mut self.kept,
            Item::Byte(..) => &mut self.bytes,
        });
    }

    // Where the table is wrong on purpose, a mismatch is what is looked for.
    pub fn compare(
        &mut self,
        rt: HostRuntime,
        word: &Word,
        item: Item,
        expected: usize,
        got: usize,
    ) {
        let differs = expected != got;
        if self.wrong {
            if differs {
                one_more(&mut self.found);
            }
            return;
        }
        self.count(item);
        if differs {
            one_more(&mut self.mismatches);
            let line = word.line;
            let place = word.place.wrapping_add(1);
            let _ = println!(rt;
                "line {line}, word {place}, {item}: expected {expected:04x}, got {got:04x}"
            );
        }
    }

    // The first `length` bytes of a buffer; past an end there is 0.
    pub fn compare_bytes(
        &mut self,
        rt: HostRuntime,
        word: &Word,
        buffer: Buffer,
        length: usize,
        expected: &[u8],
        got: &[u8],
    ) {
        for i in 0..length {
            self.compare(
                rt,
                word,
                Item::Byte(buffer, i),
                get(expected, i),
                get(got, i),
            );
        }
    }
}
