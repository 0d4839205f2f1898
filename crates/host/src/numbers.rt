// The record's parts as plain numbers, and back: first commands, the open sequence, the output, the LUN records. All by value.
ghost use Rattle.std.specs.Prelude.{◌≡◌};
ghost use Rattle.target.specs.Commands.{place_of};
ghost use Rattle.host.specs.Numbers.{first_at, sequence_of, cycles_of, output_of, output_place, lun_of, luns_of, same_cycles, same_place, four_marks};

use target::commands::place_of;
use target::{
    Column, ColumnCycles, FeatureBytes, Fill, First, Lun, Luns, Moved, Output, Row, RowCycles,
    Sequence, Wait,
};

// The open sequence as numbers; what it has not is 0.
#[derive(Clone, Copy, PartialEq, Eq)]
pub struct Cycles {
    pub kind: u8,
    pub first: u8,
    pub got: u8,
    pub low: u8,
    pub mid: u8,
    pub value: u8,
    pub column: usize,
    pub row: usize,
}

// The output as numbers; what it has not is 0.
#[derive(Clone, Copy, PartialEq, Eq)]
pub struct Place {
    pub kind: u8,
    pub lun: usize,
    pub at: usize,
}

// A mark of each of the four LUN records, as bytes.
pub type Marks = [u8; 4];

// The number of blank blocks of each of the four LUN records.
pub type Blanks = [u16; 4];

// The first command's place in the command list.
pub fn first_number(f: First) -> u8
    ensures { result ≡ place_of f }
{
    place_of(f) as u8
}

// The first commands in the list's order.
const FIRST_COMMANDS: [First; 13] = [
    First::Read,
    First::ChangeColumn,
    First::ChangeColumnEnhanced,
    First::Erase,
    First::Status,
    First::StatusEnhanced,
    First::Program,
    First::ReadId,
    First::ParameterPage,
    First::GetFeatures,
    First::SetFeatures,
    First::CopybackProgram,
    First::ChangeColumnInPage,
];

// The first command at a place of the list; one that is not there is read as the first, and then the numbers are not what it
// packs to.
pub fn first_at(n: u8) -> First
    ensures { result ≡ first_at n }
{
    let i = n as usize;
    if i < FIRST_COMMANDS.len() {
        FIRST_COMMANDS[i]
    } else {
        First::Read
    }
}

// The sequence that the numbers stand for; those that no sequence packs to are read as some sequence all the same.
pub fn to_sequence(c: Cycles) -> Sequence
    ensures { result ≡ sequence_of c }
{
    let first = first_at(c.first);
    let column = Column(c.column);
    let row = Row(c.row);
    match c.kind {
        1 => Sequence::Columns(ColumnCycles {
            first,
            got: c.got,
            low: c.low,
        }),
        2 => Sequence::Rows(RowCycles {
            first,
            column,
            got: c.got,
            low: c.low,
            mid: c.mid,
        }),
        3 => Sequence::Single(first),
        4 => Sequence::Due(Wait { first, column, row }),
        5 => Sequence::Filling(Fill {
            first,
            row,
            at: column,
        }),
        6 => Sequence::Moving(Moved {
            first,
            row,
            got: c.got,
            low: c.low,
        }),
        7 => Sequence::Setting(FeatureBytes {
            got: c.got,
            value: c.value,
        }),
        _ => Sequence::Idle,
    }
}

// No open sequence.
const IDLE: Cycles = Cycles {
    kind: 0,
    first: 0,
    got: 0,
    low: 0,
    mid: 0,
    value: 0,
    column: 0,
    row: 0,
};

impl From<Sequence> for Cycles {
    ghost from_gives = { λ s c. c ≡ cycles_of s };

    fn from(s: Sequence) -> Cycles {
        match s {
            Sequence::Idle => IDLE,
            Sequence::Columns(k) => Cycles {
                kind: 1,
                first: first_number(k.first),
                got: k.got,
                low: k.low,
                ..IDLE
            },
            Sequence::Rows(k) => Cycles {
                kind: 2,
                first: first_number(k.first),
                got: k.got,
                low: k.low,
                mid: k.mid,
                column: k.column.0,
                ..IDLE
            },
            Sequence::Single(first) => Cycles {
                kind: 3,
                first: first_number(first),
                ..IDLE
            },
            Sequence::Due(k) => Cycles {
                kind: 4,
                first: first_number(k.first),
                column: k.column.0,
                row: k.row.0,
                ..IDLE
            },
            Sequence::Filling(k) => Cycles {
                kind: 5,
                first: first_number(k.first),
                column: k.at.0,
                row: k.row.0,
                ..IDLE
            },
            Sequence::Moving(k) => Cycles {
                kind: 6,
                first: first_number(k.first),
                got: k.got,
                low: k.low,
                row: k.row.0,
                ..IDLE
            },
            Sequence::Setting(k) => Cycles {
                kind: 7,
                got: k.got,
                value: k.value,
                ..IDLE
            },
        }
    }
}

// The output that the numbers stand for; those that no output packs to are read as some output all the same.
pub fn to_output(p: Place) -> Output
    ensures { result ≡ output_of p }
{
    let Place { kind, lun, at } = p;
    match kind {
        1 => Output::Register {
            lun,
            column: Column(at),
        },
        2 => Output::Parameters { at },
        3 => Output::Status { lun },
        4 => Output::Ids { at },
        5 => Output::Signature { at },
        6 => Output::Feature { at },
        _ => Output::Nothing,
    }
}

impl From<Output> for Place {
    ghost from_gives = { λ o p. p ≡ output_place o };

    fn from(o: Output) -> Place {
        let (kind, lun, at) = match o {
            Output::Nothing => (0, 0, 0),
            Output::Register { lun, column } => (1, lun, column.0),
            Output::Parameters { at } => (2, 0, at),
            Output::Status { lun } => (3, lun, 0),
            Output::Ids { at } => (4, 0, at),
            Output::Signature { at } => (5, 0, at),
            Output::Feature { at } => (6, 0, at),
        };
        Place { kind, lun, at }
    }
}

fn lun_of(working: u8, fail: u8, copyback: u8, blank: u16) -> Lun
    ensures { result ≡ lun_of working fail copyback blank }
{
    Lun {
        working: working == 1,
        fail: fail == 1,
        copyback: copyback == 1,
        blank,
    }
}

// Four lines, since a proof knows an element by its index, and less of an array that was made by `map`.
pub fn to_luns(working: Marks, fail: Marks, copyback: Marks, blank: Blanks) -> Luns
    ensures { result ≡ luns_of working fail copyback blank }
{
    [
        lun_of(working[0], fail[0], copyback[0], blank[0]),
        lun_of(working[1], fail[1], copyback[1], blank[1]),
        lun_of(working[2], fail[2], copyback[2], blank[2]),
        lun_of(working[3], fail[3], copyback[3], blank[3]),
    ]
}

#[tactic(auto, unfolding(crate::specs::Numbers::same_cycles))]
pub fn same_cycles(a: Cycles, b: Cycles) -> bool
    ensures { result ≡ same_cycles a b }
{
    a == b
}

#[tactic(auto, unfolding(crate::specs::Numbers::same_place))]
pub fn same_place(a: Place, b: Place) -> bool
    ensures { result ≡ same_place a b }
{
    a == b
}

// Four bytes, each 0 or 1.
pub fn four_marks(m: Marks) -> bool
    ensures { result ≡ four_marks m }
{
    (m[0] <= 1) & (m[1] <= 1) & (m[2] <= 1) & (m[3] <= 1)
}
