// Views of the open sequence, each matched once: what an address cycle completes, what takes data, which second command ends it. The
// rules and the effects read these and not the sequence's shape.
ghost use Rattle.std.specs.Prelude.{◌≡◌};
ghost use Rattle.target.specs.Views.{asks_selected, completed, taking, ending, ended_by, ends_with};

use crate::address::{column_from, row_from};
use crate::commands::{end_of, in_page, needs_ready, other_end, second_of, takes_row};
use crate::{Column, FeatureBytes, Fill, First, Row, Second, Sequence};

// A whole column; `asks` says that no row follows, so that 5 is asked of the selected LUN with it; `page` that it is one of the
// parameter page.
#[derive(Clone, Copy)]
pub struct ColumnGiven {
    pub column: Column,
    pub asks: bool,
    pub page: bool,
}

// A whole row, and the command that it belongs to.
#[derive(Clone, Copy)]
pub struct RowGiven {
    pub first: First,
    pub row: Row,
}

// The one address of a command that has no more.
#[derive(Clone, Copy)]
pub struct SingleGiven {
    pub first: First,
    pub value: u8,
}

// What an address cycle completes.
#[derive(Clone, Copy)]
pub enum Given {
    Column(ColumnGiven),
    Row(RowGiven),
    Single(SingleGiven),
}

// What takes the data-in cycles.
#[derive(Clone, Copy)]
pub enum Taker {
    Program(Fill),
    Feature(FeatureBytes),
}

// A second command that fits, with the command that opened the sequence and the addresses that it has.
#[derive(Clone, Copy)]
pub struct Ended {
    pub first: First,
    pub second: Second,
    pub column: Column,
    pub row: Row,
}

// 05h has no row: 5 is asked of the selected LUN.
pub fn asks_selected(f: First) -> bool
    ensures { result ≡ asks_selected f }
{
    needs_ready(f) && !takes_row(f)
}

pub fn completed(s: Sequence, v: u8) -> Option<Given>
    ensures { result ≡ completed s v }
{
    match s {
        Sequence::Columns(k) if k.got == 1 => Some(Given::Column(ColumnGiven {
            column: column_from(k.low, v),
            asks: asks_selected(k.first),
            page: in_page(k.first),
        })),
        Sequence::Rows(k) if k.got == 2 => Some(Given::Row(RowGiven {
            first: k.first,
            row: row_from(k.low, k.mid, v),
        })),
        Sequence::Single(first) => Some(Given::Single(SingleGiven { first, value: v })),
        Sequence::Moving(k) if k.got == 1 => Some(Given::Column(ColumnGiven {
            column: column_from(k.low, v),
            asks: false,
            page: false,
        })),
        _ => None,
    }
}

pub fn taking(s: Sequence) -> Option<Taker>
    ensures { result ≡ taking s }
{
    match s {
        Sequence::Filling(k) => Some(Taker::Program(k)),
        Sequence::Setting(k) => Some(Taker::Feature(k)),
        _ => None,
    }
}

// The second command of this byte, with what the sequence has.
pub fn ended_by(v: u8, first: First, column: Column, row: Row) -> Option<Ended>
    ensures { result ≡ ended_by v first column row }
{
    let second = second_of(v)?;
    Some(Ended {
        first,
        second,
        column,
        row,
    })
}

// The byte is the first command's second one, or the other that may stand for it.
pub fn ends_with(f: First, v: u8) -> bool
    ensures { result ≡ ends_with f v }
{
    v == end_of(f) || v == other_end(f)
}

pub fn ending(s: Sequence, v: u8) -> Option<Ended>
    ensures { result ≡ ending s v }
{
    match s {
        Sequence::Due(k) if ends_with(k.first, v) => ended_by(v, k.first, k.column, k.row),
        Sequence::Filling(k) if v == 0x10 || v == 0x85 => ended_by(v, k.first, k.at, k.row),
        _ => None,
    }
}
