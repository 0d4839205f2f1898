// A record with one number of it changed: what the table's R words ask, for rule 13.
use target::commands::first_of;
use target::{
    Column, Decoder, FeatureBytes, Fill, First, Moved, Output, Row, Sequence, Target, Wait,
};

fn word(v: usize) -> u16 {
    (v % 65536) as u16
}

fn output(field: usize, v: usize) -> Output {
    match field {
        16 => Output::Register {
            lun: 0,
            column: Column(v),
        },
        17 => Output::Register {
            lun: v,
            column: Column(0),
        },
        18 => Output::Parameters { at: v },
        19 => Output::Status { lun: v },
        20 => Output::Ids { at: v },
        21 => Output::Signature { at: v },
        _ => Output::Feature { at: v },
    }
}

fn due(first: First, column: usize, row: usize) -> Sequence {
    Sequence::Due(Wait {
        first,
        column: Column(column),
        row: Row(row),
    })
}

fn filling(first: First, row: usize, at: usize) -> Sequence {
    Sequence::Filling(Fill {
        first,
        row: Row(row),
        at: Column(at),
    })
}

fn moving(first: First, row: usize) -> Sequence {
    Sequence::Moving(Moved {
        first,
        row: Row(row),
        got: 1,
        low: 0,
    })
}

// The first command of a byte; the program's where there is none.
fn opener(v: usize) -> First {
    first_of((v % 256) as u8).unwrap_or(First::Program)
}

fn sequence(field: usize, v: usize) -> Sequence {
    match field {
        32 => due(First::Read, v, 0),
        33 => due(First::Read, 0, v),
        34 => due(First::ChangeColumnEnhanced, v, 0),
        35 => due(First::ChangeColumnEnhanced, 0, v),
        36 => due(First::ChangeColumn, v, 0),
        37 => due(First::Erase, 0, v),
        38 => filling(First::Program, 0, v),
        39 => filling(First::Program, v, 0),
        40 => moving(First::Program, v),
        41 => Sequence::Setting(FeatureBytes {
            got: (v % 256) as u8,
            value: 0,
        }),
        42 => filling(First::CopybackProgram, 0, v),
        43 => filling(First::CopybackProgram, v, 0),
        44 => moving(First::CopybackProgram, v),
        45 => filling(opener(v), 0, 0),
        47 => due(First::ChangeColumnInPage, v, 0),
        _ => moving(opener(v), 0),
    }
}

// A status of LUN 0 is open, and this is kept behind it.
fn behind_status(kept: Output) -> Decoder {
    Decoder {
        sequence: Sequence::Idle,
        output: Output::Status { lun: 0 },
        kept,
    }
}

fn decoder(sequence: Sequence, output: Output) -> Decoder {
    Decoder {
        sequence,
        output,
        kept: Output::Nothing,
    }
}

// Sets number `field` of the record to `v`; the numbers are those of tools/expect/cases.py.
pub fn spoil(t: &mut Target, field: usize, v: usize) {
    match field {
        0 => t.powered = v == 1,
        1 => t.geometry.bytes = word(v),
        2 => t.geometry.pages = v,
        3 => t.geometry.blocks = v,
        4 => t.geometry.luns = v,
        5 => t.geometry.programs = v,
        6 => t.selected = v,
        7 => t.luns[2].working = v == 1,
        8 => t.luns[3].fail = v == 1,
        9 => t.words.features = word(v),
        10 => t.words.optional = word(v),
        11 => t.luns[0].copyback = v == 1,
        12 => t.luns[2].copyback = v == 1,
        13..=15 => t.luns[field - 13].blank = word(v),
        16..=22 => t.decoder = decoder(Sequence::Idle, output(field, v)),
        48..=54 => t.decoder = behind_status(output(field - 32, v)),
        _ => t.decoder = decoder(sequence(field, v), Output::Nothing),
    }
}
