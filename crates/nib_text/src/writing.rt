// A trace back as text: a line a command; addresses and data in up to 16 on a line; data outs in a row as one count.
ghost use Rattle.std.specs.Prelude.{◌≡◌};
ghost use Rattle.nib_text.specs.Writing.{record_kind, record_value, limit_of, goes_on, is_pending, is_open, added, wrote_next, wrote_odd, wrote_end, writing_begun, no_piece};

use crate::reading::up;
use crate::{Kind, same_kind};

#[derive(Clone, Copy)]
pub struct Writing {
    // the first byte of a record, where it has come and the second has not
    pub half: Option<u8>,
    // the line under way, and how many values it has; a line of data outs is not written before its count is known
    pub line: Option<Kind>,
    pub many: usize,
}

// A value as it is written: two hex digits; a number; a record as two bytes, which may name no kind.
#[derive(Clone, Copy)]
pub enum Value {
    Byte(u8),
    Number(u8),
    Pair { kind: u8, value: u8 },
}

// What there is to write, in this order: a whole line of data outs where `outs` is not 0, a line end, a letter, a value. `outs` is no
// Option, since C's state can have a line of data outs with none counted, of which nothing is written.
#[derive(Clone, Copy)]
pub struct Piece {
    pub outs: usize,
    pub close: bool,
    pub letter: Option<Kind>,
    pub value: Option<Value>,
}

#[derive(Clone, Copy)]
pub struct Wrote {
    pub writing: Writing,
    pub piece: Piece,
}

// The letter for a record.
pub fn record_kind(kind: u8, value: u8) -> Option<Kind>
    ensures { result ≡ record_kind kind value }
{
    Some(match (kind, value) {
        (0, _) => Kind::Command,
        (1, _) => Kind::Address,
        (2, _) => Kind::DataIn,
        (3, 0) => Kind::DataOut,
        (4, _) => Kind::Finish,
        (5, _) => Kind::Protect,
        _ => Kind::Raw,
    })
}

// What is written after that letter.
pub fn record_value(k: Option<Kind>, kind: u8, value: u8) -> Option<Value>
    ensures { result ≡ record_value k kind value }
{
    match k {
        Some(Kind::Command | Kind::Address | Kind::DataIn) => Some(Value::Byte(value)),
        Some(Kind::Finish | Kind::Protect) => Some(Value::Number(value)),
        Some(Kind::Raw) => Some(Value::Pair { kind, value }),
        _ => None,
    }
}

// How many values go on a line.
pub fn limit_of(k: Option<Kind>) -> usize
    ensures { result ≡ limit_of k }
{
    match k {
        Some(Kind::Address | Kind::DataIn) => 16,
        Some(Kind::DataOut) => 65535,
        _ => 1,
    }
}

// The line under way takes one value more of that kind.
pub fn goes_on(w: Writing, k: Option<Kind>) -> bool
    ensures { result ≡ goes_on w k }
{
    same_kind(w.line, k) && w.many < limit_of(k)
}

// Data outs are not written yet.
pub fn is_pending(w: Writing) -> bool
    ensures { result ≡ is_pending w }
{
    matches!(w.line, Some(Kind::DataOut))
}

// A line is without its end.
pub fn is_open(w: Writing) -> bool
    ensures { result ≡ is_open w }
{
    !matches!(w.line, None | Some(Kind::DataOut))
}

// One value more.
pub fn added(w: Writing, k: Option<Kind>, value: Option<Value>) -> Wrote
    ensures { result ≡ added w k value }
{
    let on = goes_on(w, k);
    let lettered = !on && !matches!(k, Some(Kind::DataOut));
    let piece = Piece {
        outs: if is_pending(w) && !on { w.many } else { 0 },
        close: is_open(w) && !on,
        letter: if lettered { k } else { None },
        value,
    };
    let writing = Writing {
        half: None,
        line: k,
        many: if on { up(w.many) } else { 1 },
    };
    Wrote { writing, piece }
}

pub fn no_piece() -> Piece
    ensures { result ≡ no_piece }
{
    Piece {
        outs: 0,
        close: false,
        letter: None,
        value: None,
    }
}

// One byte of the trace.
pub fn wrote_next(w: Writing, b: u8) -> Wrote
    ensures { result ≡ wrote_next w b }
{
    match w.half {
        Some(kind) => {
            let k = record_kind(kind, b);
            added(w, k, record_value(k, kind, b))
        }
        None => Wrote {
            writing: Writing { half: Some(b), ..w },
            piece: no_piece(),
        },
    }
}

// The odd last byte, where there is one.
pub fn wrote_odd(w: Writing) -> Wrote
    ensures { result ≡ wrote_odd w }
{
    match w.half {
        Some(b) => added(w, Some(Kind::Raw), Some(Value::Byte(b))),
        None => Wrote {
            writing: w,
            piece: no_piece(),
        },
    }
}

// What is left to write at the end.
pub fn wrote_end(w: Writing) -> Piece
    ensures { result ≡ wrote_end w }
{
    Piece {
        outs: if is_pending(w) { w.many } else { 0 },
        close: is_open(w),
        letter: None,
        value: None,
    }
}

pub fn writing_begun() -> Writing
    ensures { result ≡ writing_begun }
{
    Writing {
        half: None,
        line: None,
        many: 0,
    }
}
