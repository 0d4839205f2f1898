// What a text means.
ghost use Rattle.std.specs.Prelude.{◌≡◌};
ghost use Rattle.nib_text.specs.Reading.{hex_value, letter_of, is_gap, ends_line, more, tenfold, no_word, grown, is_letter, is_head, is_byte, is_number, is_count, is_refusal, byte_said, number_said, count_said, raw_said, expected_said, refusal_said, value_said, job_said, head_said, word_said, word_kind, word_job, one_more, word_got, word_due, is_wrong, late_said, ended, passed, next_of, begun, up, spot_next, spot_begun};

use crate::Kind;
use crate::job_words::{Asks, asks_of, is_job, is_ok, job_named, name_begun, name_next, wants};
use jobs::reading::First;

// The word under way. A number stands beside its flag, and no Option, since C's state goes on with the number where the flag is down
// (`nib_text_next`).
#[derive(Clone, Copy)]
pub struct Word {
    // how many bytes it has: 0, 1, 2, and 3 for more
    pub length: u8,
    pub first: u8,
    // its last two bytes as hex digits, and whether every byte is one
    pub hex: u8,
    pub hexed: bool,
    // its bytes as decimal digits, and whether every byte is one
    pub number: usize,
    pub numbered: bool,
    // how much of a job's word, or of `ok`, it is
    pub name: u8,
}

#[derive(Clone, Copy)]
pub struct Reading {
    pub comment: bool,
    // the letter that counts
    pub kind: Option<Kind>,
    // it has no value yet, or the job wants one more
    pub due: bool,
    pub word: Word,
    // a part is given, so that jobs are taken
    pub part: bool,
    // the job whose values come, in the letter's place, and how many have come
    pub job: Option<First>,
    pub got: u8,
}

#[derive(Clone, Copy)]
pub enum Wrong {
    // a value with no letter before it on its line
    NoLetter,
    // a letter with no value
    NoValue,
    // not two hex digits
    NotByte,
    // not a decimal number, or too large
    NotNumber,
    // a letter, a job's word or `ok` where the letter before it wants a value
    Early,
    // a job's word, and no part is given
    NoPart,
    // a job ends that wants more values
    TooFew,
    // a value more than the job takes
    TooMany,
    // the part has no such place; `nib_places` says which
    NoLun,
    NoBlock,
    NoPage,
    NoColumn,
    // a value after `ok`
    AfterOk,
    // no refusal's number after `!`
    NotRefusal,
}

// What a byte of text adds to the trace, or expects of it. An enum of its own, as the seven things that are said stand beside
// nothing and a wrong word in one list: whoever reads a text tells all nine apart.
#[derive(Clone, Copy)]
pub enum Said {
    Nothing,
    Record { kind: u8, value: u8 },
    Byte(u8),
    Outs(usize),
    // a value of the job whose words come
    Value { of: Option<Asks>, number: usize },
    Wrong(Wrong),
    // the word `ok`. It comes after the job and the list that end here
    Accepted,
    // a byte more of the list that must have come
    Expected(u8),
    // the refusal that must have come
    Refused(u8),
}

#[derive(Clone, Copy)]
pub struct Read {
    pub reading: Reading,
    pub said: Said,
    // the job that ends here, with what is said as its last value. Where the word is wrong it means nothing
    pub whole: Option<First>,
    // a list of bytes that must have come ends here, likewise
    pub listed: bool,
}

// Where a text stands: the line and the place of its next byte, and where its last word begins.
#[derive(Clone, Copy)]
pub struct Spot {
    pub line: usize,
    pub place: usize,
    pub start: usize,
}

// The value of a hex digit, 16 for any other byte: a number, since the word's number goes on with it in C's state.
pub fn hex_value(b: u8) -> u8
    ensures { result ≡ hex_value b }
{
    match b {
        b'0'..=b'9' => b - 48,
        b'A'..=b'F' => b - 55,
        b'a'..=b'f' => b - 87,
        _ => 16,
    }
}

pub fn letter_of(b: u8) -> Option<Kind>
    ensures { result ≡ letter_of b }
{
    match b {
        b'c' => Some(Kind::Command),
        b'a' => Some(Kind::Address),
        b'd' => Some(Kind::DataIn),
        b'o' => Some(Kind::DataOut),
        b'f' => Some(Kind::Finish),
        b'p' => Some(Kind::Protect),
        b'x' => Some(Kind::Raw),
        b'=' => Some(Kind::Bytes),
        b'!' => Some(Kind::Refusal),
        _ => None,
    }
}

// A line end, or the sign of a comment.
pub fn ends_line(b: u8) -> bool
    ensures { result ≡ ends_line b }
{
    b == b'\n' || b == b'#'
}

// A byte that ends a word.
pub fn is_gap(b: u8) -> bool
    ensures { result ≡ is_gap b }
{
    b == b' ' || b == b'\t' || b == b'\r' || ends_line(b)
}

pub fn more(n: u8) -> u8
    ensures { result ≡ more n }
{
    if n < 3 { n + 1 } else { n }
}

pub fn tenfold(n: usize, d: u8) -> usize
    ensures { result ≡ tenfold n d }
{
    if n < 100000 { n * 10 + d as usize } else { n }
}

pub fn no_word() -> Word
    ensures { result ≡ no_word }
{
    Word {
        length: 0,
        first: 0,
        hex: 0,
        hexed: true,
        number: 0,
        numbered: true,
        name: 0,
    }
}

// The word with one byte more.
pub fn grown(w: Word, b: u8) -> Word
    ensures { result ≡ grown w b }
{
    let d = hex_value(b);
    let begins = w.length == 0;
    Word {
        length: more(w.length),
        first: if begins { b } else { w.first },
        hex: w.hex % 16 * 16 + d % 16,
        hexed: w.hexed && d < 16,
        number: tenfold(w.number, d),
        numbered: w.numbered && d < 10,
        name: if begins {
            name_begun(b)
        } else {
            name_next(w.name, b)
        },
    }
}

pub fn is_letter(w: Word) -> bool
    ensures { result ≡ is_letter w }
{
    w.length == 1 && letter_of(w.first).is_some()
}

// A letter, a job's word, or `ok`.
pub fn is_head(w: Word) -> bool
    ensures { result ≡ is_head w }
{
    is_letter(w) || is_job(job_named(w.name)) || is_ok(w.name)
}

pub fn is_byte(w: Word) -> bool
    ensures { result ≡ is_byte w }
{
    w.length == 2 && w.hexed
}

pub fn is_number(w: Word) -> bool
    ensures { result ≡ is_number w }
{
    w.numbered && w.number < 256
}

pub fn is_count(w: Word) -> bool
    ensures { result ≡ is_count w }
{
    w.numbered && w.number < 65536
}

pub fn is_refusal(w: Word) -> bool
    ensures { result ≡ is_refusal w }
{
    is_number(w) && 0 < w.number
}

pub fn byte_said(kind: u8, w: Word) -> Said
    ensures { result ≡ byte_said kind w }
{
    if is_byte(w) {
        Said::Record { kind, value: w.hex }
    } else {
        Said::Wrong(Wrong::NotByte)
    }
}

pub fn number_said(kind: u8, w: Word) -> Said
    ensures { result ≡ number_said kind w }
{
    if is_number(w) {
        Said::Record {
            kind,
            value: w.number as u8,
        }
    } else {
        Said::Wrong(Wrong::NotNumber)
    }
}

pub fn count_said(w: Word) -> Said
    ensures { result ≡ count_said w }
{
    if is_count(w) {
        Said::Outs(w.number)
    } else {
        Said::Wrong(Wrong::NotNumber)
    }
}

pub fn raw_said(w: Word) -> Said
    ensures { result ≡ raw_said w }
{
    if is_byte(w) {
        Said::Byte(w.hex)
    } else {
        Said::Wrong(Wrong::NotByte)
    }
}

pub fn expected_said(w: Word) -> Said
    ensures { result ≡ expected_said w }
{
    if is_byte(w) {
        Said::Expected(w.hex)
    } else {
        Said::Wrong(Wrong::NotByte)
    }
}

pub fn refusal_said(w: Word) -> Said
    ensures { result ≡ refusal_said w }
{
    if is_refusal(w) {
        Said::Refused(w.number as u8)
    } else {
        Said::Wrong(Wrong::NotRefusal)
    }
}

// A word that is no letter.
pub fn value_said(k: Option<Kind>, w: Word) -> Said
    ensures { result ≡ value_said k w }
{
    match k {
        None => Said::Wrong(Wrong::NoLetter),
        Some(Kind::Command) => byte_said(0, w),
        Some(Kind::Address) => byte_said(1, w),
        Some(Kind::DataIn) => byte_said(2, w),
        Some(Kind::DataOut) => count_said(w),
        Some(Kind::Finish) => number_said(4, w),
        Some(Kind::Protect) => number_said(5, w),
        Some(Kind::Raw) => raw_said(w),
        Some(Kind::Bytes) => expected_said(w),
        Some(Kind::Refusal) => refusal_said(w),
        Some(Kind::Accepted) => Said::Wrong(Wrong::AfterOk),
    }
}

// A value of a job.
pub fn job_said(a: Option<Asks>, w: Word) -> Said
    ensures { result ≡ job_said a w }
{
    match a {
        None => Said::Wrong(Wrong::TooMany),
        Some(Asks::Byte) if is_byte(w) => Said::Value {
            of: a,
            number: w.hex as usize,
        },
        Some(Asks::Byte) => Said::Wrong(Wrong::NotByte),
        _ if is_count(w) => Said::Value {
            of: a,
            number: w.number,
        },
        _ => Said::Wrong(Wrong::NotNumber),
    }
}

// A letter, a job's word or `ok`.
pub fn head_said(r: Reading) -> Said
    ensures { result ≡ head_said r }
{
    if r.due && is_job(r.job) {
        Said::Wrong(Wrong::TooFew)
    } else if r.due {
        Said::Wrong(Wrong::Early)
    } else if is_job(job_named(r.word.name)) && !r.part {
        Said::Wrong(Wrong::NoPart)
    } else if is_ok(r.word.name) {
        Said::Accepted
    } else {
        Said::Nothing
    }
}

// What a word says where it ends.
pub fn word_said(r: Reading) -> Said
    ensures { result ≡ word_said r }
{
    if r.word.length == 0 {
        Said::Nothing
    } else if is_head(r.word) {
        head_said(r)
    } else if is_job(r.job) {
        job_said(asks_of(r.job, r.got), r.word)
    } else {
        value_said(r.kind, r.word)
    }
}

// The letter that counts after the word.
pub fn word_kind(r: Reading) -> Option<Kind>
    ensures { result ≡ word_kind r }
{
    if !is_head(r.word) {
        r.kind
    } else if is_letter(r.word) {
        letter_of(r.word.first)
    } else if is_ok(r.word.name) {
        Some(Kind::Accepted)
    } else {
        None
    }
}

// The job whose values come after the word.
pub fn word_job(r: Reading) -> Option<First>
    ensures { result ≡ word_job r }
{
    if is_head(r.word) {
        job_named(r.word.name)
    } else {
        r.job
    }
}

// No job has more than four values but a program, whose bytes come after its four.
pub fn one_more(got: u8) -> u8
    ensures { result ≡ one_more got }
{
    if got < 4 { got + 1 } else { got }
}

// How many values have come after the word.
pub fn word_got(r: Reading) -> u8
    ensures { result ≡ word_got r }
{
    if is_head(r.word) {
        0
    } else if r.word.length == 0 {
        r.got
    } else {
        one_more(r.got)
    }
}

// A value has to come after the word.
pub fn word_due(r: Reading) -> bool
    ensures { result ≡ word_due r }
{
    if r.word.length == 0 {
        return r.due;
    }
    let named = is_head(r.word) && !is_ok(r.word.name);
    named || wants(asks_of(word_job(r), word_got(r)))
}

pub fn is_wrong(s: Said) -> bool
    ensures { result ≡ is_wrong s }
{
    matches!(s, Said::Wrong(_))
}

// Where a line ends before a value that is due has come. What is wrong with the last word itself is told of first.
pub fn late_said(late: bool, job: Option<First>, s: Said) -> Said
    ensures { result ≡ late_said late job s }
{
    if !late || is_wrong(s) {
        s
    } else if is_job(job) {
        Said::Wrong(Wrong::TooFew)
    } else {
        Said::Wrong(Wrong::NoValue)
    }
}

// A byte that ends a word, and may end the line.
pub fn ended(r: Reading, b: u8) -> Read
    ensures { result ≡ ended r b }
{
    let ends = ends_line(b);
    let due = word_due(r);
    let job = word_job(r);
    let over = ends || is_head(r.word);
    let said = late_said(ends && due, job, word_said(r));
    let reading = Reading {
        comment: b == b'#',
        kind: if ends { None } else { word_kind(r) },
        due: due && !ends,
        word: no_word(),
        part: r.part,
        job: if ends { None } else { job },
        got: if ends { 0 } else { word_got(r) },
    };
    Read {
        reading,
        said,
        whole: if over { r.job } else { None },
        listed: over && matches!(r.kind, Some(Kind::Bytes)),
    }
}

// A byte of a comment.
pub fn passed(r: Reading, b: u8) -> Read
    ensures { result ≡ passed r b }
{
    let reading = Reading {
        comment: b != b'\n',
        ..r
    };
    Read {
        reading,
        said: Said::Nothing,
        whole: None,
        listed: false,
    }
}

// One byte of text.
pub fn next(r: Reading, b: u8) -> Read
    ensures { result ≡ next_of r b }
{
    if r.comment {
        passed(r, b)
    } else if is_gap(b) {
        ended(r, b)
    } else {
        let word = grown(r.word, b);
        Read {
            reading: Reading { word, ..r },
            said: Said::Nothing,
            whole: None,
            listed: false,
        }
    }
}

// Where a text begins, with a part or without.
pub fn begun(part: bool) -> Reading
    ensures { result ≡ begun part }
{
    let word = no_word();
    Reading {
        comment: false,
        kind: None,
        due: false,
        word,
        part,
        job: None,
        got: 0,
    }
}

pub fn up(n: usize) -> usize
    ensures { result ≡ up n }
{
    if n < 1000000000000 { n + 1 } else { n }
}

pub fn spot_begun() -> Spot
    ensures { result ≡ spot_begun }
{
    Spot {
        line: 1,
        place: 1,
        start: 1,
    }
}

// The spot after a byte. A word begins where none is under way.
pub fn spot_next(s: Spot, r: Reading, b: u8) -> Spot
    ensures { result ≡ spot_next s r b }
{
    let line_ends = b == b'\n';
    let begins = r.word.length == 0 && !r.comment && !is_gap(b);
    Spot {
        line: if line_ends { up(s.line) } else { s.line },
        place: if line_ends { 1 } else { up(s.place) },
        start: if begins { s.place } else { s.start },
    }
}
