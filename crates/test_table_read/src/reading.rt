// Reads the table a character at a time, and hands out its words.
use crate::tally::Tally;

// What a line says, by its letter.
#[derive(Clone, Copy)]
pub enum Kind {
    Remark,
    // a part, how much of each buffer is lent, and bytes of what is lent
    Part,
    Lengths,
    Page,
    FirstCounts,
    Flags,
    // a state and a case by name, and a case that is wrong on purpose
    State,
    Case,
    Wrong,
    // what the model is asked
    PowerOn,
    Events,
    Cells,
    Record,
    // a trace, what its reply room is to hold, and its run
    Trace,
    Replies,
    Run,
    // what the buffers are to hold, and that they are compared
    Array,
    Registers,
    Counts,
    Compare,
    // no line of the table begins so
    Unknown,
}

impl From<u8> for Kind {
    fn from(letter: u8) -> Kind {
        match letter {
            b'#' => Kind::Remark,
            b'P' => Kind::Part,
            b'L' => Kind::Lengths,
            b'G' => Kind::Page,
            b'C' => Kind::FirstCounts,
            b'F' => Kind::Flags,
            b'S' => Kind::State,
            b'T' => Kind::Case,
            b'W' => Kind::Wrong,
            b'O' => Kind::PowerOn,
            b'I' => Kind::Events,
            b'X' => Kind::Cells,
            b'R' => Kind::Record,
            b'D' => Kind::Trace,
            b'E' => Kind::Replies,
            b'Y' => Kind::Run,
            b'A' => Kind::Array,
            b'V' => Kind::Registers,
            b'K' => Kind::Counts,
            b'Q' => Kind::Compare,
            _ => Kind::Unknown,
        }
    }
}

impl Kind {
    // Such a line holds a name or a remark, and no words.
    fn is_named(self) -> bool {
        matches!(
            self,
            Kind::Remark | Kind::Part | Kind::State | Kind::Case | Kind::Wrong
        )
    }
}

// A word of the table.
#[derive(Clone, Copy)]
pub struct Word {
    pub kind: Kind,
    // its line, from 1, and its place in the line, from 0
    pub line: usize,
    pub place: usize,
    // how often it stands there
    pub times: usize,
    pub numbers: [usize; 3],
    // any byte will do in a reply
    pub any: bool,
}

// As much of a word as is read.
#[derive(Clone, Copy)]
struct Draft {
    times: usize,
    // the numbers that are whole, how many they are, and the value of the next one's digits
    numbers: [usize; 3],
    count: usize,
    value: usize,
    // a digit has come
    given: bool,
    any: bool,
}

// One time, and no number yet.
const BLANK: Draft = Draft {
    times: 1,
    numbers: [0; 3],
    count: 0,
    value: 0,
    given: false,
    any: false,
};

impl Draft {
    fn digit(&mut self, v: u8) {
        self.value = self.value % 4096 * 16 + v as usize;
        self.given = true;
    }

    // A number is whole.
    fn keep_number(&mut self) {
        self.numbers[self.count % 3] = self.value;
        self.count = self.count.wrapping_add(1);
        self.value = 0;
    }
}

#[derive(Drop)]
pub struct Reader {
    line: usize,
    place: usize,
    // before the line's letter there is none
    kind: Option<Kind>,
    draft: Draft,
}

impl Reader {
    pub fn new() -> Reader {
        Reader {
            line: 1,
            place: 0,
            kind: None,
            draft: BLANK,
        }
    }

    // One character, and the word that it ends.
    pub fn take(&mut self, rt: HostRuntime, tally: &mut Tally, c: u8) -> Option<Word> {
        match c {
            b' ' => self.end_word(),
            b'\n' => {
                let word = self.end_word();
                self.line = self.line.wrapping_add(1);
                self.place = 0;
                self.kind = None;
                word
            }
            _ => {
                match self.kind {
                    None => self.begin(rt, tally, c),
                    Some(kind) if kind.is_named() => {}
                    Some(_) => self.letter(rt, tally, c),
                }
                None
            }
        }
    }

    // A line's letter. Parts and comparisons are done with no word.
    fn begin(&mut self, rt: HostRuntime, tally: &mut Tally, c: u8) {
        let kind = Kind::from(c);
        match kind {
            Kind::State => tally.begin_state(),
            Kind::Case => tally.begin_case(),
            Kind::Wrong => tally.wrong = true,
            Kind::Part | Kind::Compare => self.draft.given = true,
            Kind::Unknown => tally.unreadable(rt, self.line, c),
            _ => {}
        }
        // a NUL is told and is no letter: the line's is still to come
        self.kind = if c == 0 { None } else { Some(kind) };
    }

    // A character of a word; 'x' stands for any digit, in the byte of a reply.
    fn letter(&mut self, rt: HostRuntime, tally: &mut Tally, c: u8) {
        let draft = &mut self.draft;
        match c {
            b'0'..=b'9' => draft.digit(c - b'0'),
            b'A'..=b'F' => draft.digit(c - b'A' + 10),
            b'x' => {
                draft.digit(0);
                draft.any = true;
            }
            b'*' => {
                draft.times = draft.value;
                draft.value = 0;
            }
            b':' | b'=' | b'>' => draft.keep_number(),
            _ => tally.unreadable(rt, self.line, c),
        }
    }

    fn end_word(&mut self) -> Option<Word> {
        let kind = self.kind?;
        if !self.draft.given {
            return None;
        }
        self.draft.keep_number();
        let Draft {
            times,
            numbers,
            any,
            ..
        } = self.draft;
        let word = Word {
            kind,
            line: self.line,
            place: self.place,
            times,
            numbers,
            any,
        };
        self.place = self.place.wrapping_add(1);
        self.draft = BLANK;
        Some(word)
    }
}
