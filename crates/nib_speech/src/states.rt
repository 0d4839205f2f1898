// How far a text or a trace has come, as one number; and what a byte said, as one number.
ghost use Rattle.std.specs.Prelude.{◌≡◌};
ghost use Rattle.nib_speech.specs.Speech.{bit, kind_of, first_of, asks_of, reading_of, reading_number, wrong_number, said_number, writing_of, writing_number};

use jobs::reading::First;
use nib_text::job_words::{Asks, asks_number, job_number};
use nib_text::reading::{Reading, Said, Word, Wrong};
use nib_text::writing::Writing;
use nib_text::{Kind, kind_number};

pub fn set_bit(b: bool) -> u8
    ensures { result ≡ bit b }
{
    u8::from(b)
}

// The letter of a number; None for 0, and for a number that no letter has.
pub fn kind_of(n: u64) -> Option<Kind>
    ensures { result ≡ kind_of n }
{
    match n {
        1 => Some(Kind::Command),
        2 => Some(Kind::Address),
        3 => Some(Kind::DataIn),
        4 => Some(Kind::DataOut),
        5 => Some(Kind::Finish),
        6 => Some(Kind::Protect),
        7 => Some(Kind::Raw),
        8 => Some(Kind::Bytes),
        9 => Some(Kind::Refusal),
        10 => Some(Kind::Accepted),
        _ => None,
    }
}

// The job of a number.
pub fn first_of(n: u64) -> Option<First>
    ensures { result ≡ first_of n }
{
    match n {
        1 => Some(First::Read),
        2 => Some(First::ReadOut),
        3 => Some(First::Program),
        4 => Some(First::Erase),
        5 => Some(First::Status),
        _ => None,
    }
}

// What a job's value is, of a number.
pub fn asks_of(n: u64) -> Option<Asks>
    ensures { result ≡ asks_of n }
{
    match n {
        1 => Some(Asks::Lun),
        2 => Some(Asks::Block),
        3 => Some(Asks::Page),
        4 => Some(Asks::Column),
        5 => Some(Asks::Count),
        6 => Some(Asks::Byte),
        _ => None,
    }
}

pub fn reading_of(n: u64) -> Reading
    ensures { result ≡ reading_of n }
{
    let word = Word {
        length: (n / 16 % 4) as u8,
        first: (n / 64 % 256) as u8,
        hex: (n / 16384 % 256) as u8,
        hexed: n / 4 % 2 == 0,
        number: (n / 4194304 % 1048576) as usize,
        numbered: n / 8 % 2 == 0,
        name: (n / 70368744177664 % 64) as u8,
    };
    let kind = kind_of(n / 288230376151711744);
    let job = first_of(n / 36028797018963968 % 8);
    Reading {
        comment: n % 2 == 1,
        kind,
        due: n / 2 % 2 == 1,
        word,
        part: n / 35184372088832 % 2 == 1,
        job,
        got: (n / 4503599627370496 % 8) as u8,
    }
}

pub fn reading_number(r: Reading) -> u64
    ensures { result ≡ reading_number r }
{
    let w = r.word;
    set_bit(r.comment) as u64
        + (set_bit(r.due) as u64) * 2
        + (set_bit(!w.hexed) as u64) * 4
        + (set_bit(!w.numbered) as u64) * 8
        + (w.length as u64) * 16
        + (w.first as u64) * 64
        + (w.hex as u64) * 16384
        + (w.number as u64) % 1048576 * 4194304
        + (set_bit(r.part) as u64) * 35184372088832
        + (w.name as u64) % 64 * 70368744177664
        + (r.got as u64) % 8 * 4503599627370496
        + (job_number(r.job) as u64) * 36028797018963968
        + (kind_number(r.kind) as u64) % 16 * 288230376151711744
}

pub fn wrong_number(w: Wrong) -> u8
    ensures { result ≡ wrong_number w }
{
    match w {
        Wrong::NoLetter => 1,
        Wrong::NoValue => 2,
        Wrong::NotByte => 3,
        Wrong::NotNumber => 4,
        Wrong::Early => 5,
        Wrong::NoPart => 6,
        Wrong::TooFew => 7,
        Wrong::TooMany => 8,
        Wrong::NoLun => 9,
        Wrong::NoBlock => 10,
        Wrong::NoPage => 11,
        Wrong::NoColumn => 12,
        Wrong::AfterOk => 13,
        Wrong::NotRefusal => 14,
    }
}

pub fn said_number(s: Said) -> u64
    ensures { result ≡ said_number s }
{
    match s {
        Said::Nothing => 0,
        Said::Record { kind, value } => 65536 + (kind as u64) * 256 + value as u64,
        Said::Byte(b) => 131072 + b as u64,
        Said::Outs(n) => 196608 + (n as u64) % 65536,
        Said::Value { of, number } => {
            262144 + (asks_number(of) as u64) * 65536 + (number as u64) % 65536
        }
        Said::Wrong(w) => 262144 + wrong_number(w) as u64,
        Said::Accepted => 720896,
        Said::Expected(b) => 786432 + b as u64,
        Said::Refused(n) => 851968 + n as u64,
    }
}

pub fn writing_of(n: u64) -> Writing
    ensures { result ≡ writing_of n }
{
    let first = (n / 32 % 256) as u8;
    Writing {
        half: if n % 2 == 1 { Some(first) } else { None },
        line: kind_of(n / 2 % 16),
        many: (n / 8192) as usize,
    }
}

pub fn writing_number(w: Writing) -> u64
    ensures { result ≡ writing_number w }
{
    set_bit(w.half.is_some()) as u64
        + (kind_number(w.line) as u64) * 2
        + (w.half.unwrap_or(0) as u64) * 32
        + (w.many as u64) % 65536 * 8192
}
