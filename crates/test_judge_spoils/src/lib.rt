// The generator's spoiled records, each with one number that no run gives it, and their legal neighbours. A spoil keeps
// its number of judge/generate.c: it is drawn as one, written with -t, and changed to another for some parts, so an
// enum of 75 names would be turned into its number and back at each use.
#![tactic(auto)]

use target::sizes::page_size;
use target::{
    Column, ColumnCycles, Decoder, FeatureBytes, Fill, First, Geometry, Moved, Output, Row,
    Sequence, Target, Wait,
};
use test_judge_parts::buffers::Lengths;
use test_judge_parts::parts::Part;
use test_judge_parts::state::State;
use test_kit::numbers::{add, bits_for, power, sub};

fn spoil_geometry(g: Geometry, what: usize) -> Geometry {
    match what {
        1 => Geometry {
            bytes: 15,
            spare: 0,
            ..g
        },
        2 => Geometry {
            bytes: 16385,
            spare: 2048,
            ..g
        },
        3 => Geometry { pages: 0, ..g },
        4 => Geometry { pages: 257, ..g },
        5 => Geometry { blocks: 0, ..g },
        6 => Geometry { blocks: 4097, ..g },
        7 => Geometry { luns: 0, ..g },
        8 => Geometry { luns: 5, ..g },
        9 => Geometry { programs: 0, ..g },
        _ => Geometry { programs: 9, ..g },
    }
}

// A LUN with a copyback open.
fn open_copyback(t: &mut Target, l: usize) {
    if let Some(lun) = t.luns.get_mut(l) {
        lun.copyback = true;
    }
}

// A LUN with this number of blank blocks.
pub fn set_blank(t: &mut Target, l: usize, number: usize) {
    if let Some(lun) = t.luns.get_mut(l) {
        lun.blank = (number % 65536) as u16;
    }
}

// Spoils of the number of blank blocks, the last one of a LUN that does not exist; 70 and 71 are legal.
fn spoil_blank(t: &mut Target, what: usize) {
    let blocks = t.geometry.blocks;
    let last = sub(t.geometry.luns, 1);
    match what {
        70 => set_blank(t, 0, 0),
        71 => set_blank(t, last, blocks),
        72 => set_blank(t, 0, add(blocks, 1)),
        73 => set_blank(t, last, add(blocks, 1)),
        _ => set_blank(t, 3, 1),
    }
}

// Spoils of the record's own numbers; 54 is legal, with the option or without.
fn spoil_number(t: &mut Target, what: usize) {
    let luns = t.geometry.luns;
    match what {
        0 => t.powered = false,
        11 => t.selected = luns,
        12 => t.luns[3].working = true,
        30 => t.luns[3].fail = true,
        47 => open_copyback(t, 3),
        54 => open_copyback(t, sub(luns, 1)),
        _ => t.geometry = spoil_geometry(t.geometry, what),
    }
}

// Spoils of the output, and from 25 on their legal neighbours.
fn spoil_output(g: Geometry, what: usize) -> Output {
    let end = page_size(g);
    match what {
        18 => Output::Register {
            lun: 0,
            column: Column(add(end, 1)),
        },
        19 => Output::Register {
            lun: g.luns,
            column: Column(0),
        },
        20 => Output::Status { lun: g.luns },
        21 => Output::Parameters { at: 769 },
        22 => Output::Ids { at: 3 },
        23 => Output::Signature { at: 5 },
        24 => Output::Feature { at: 5 },
        25 => Output::Register {
            lun: 0,
            column: Column(end),
        },
        26 => Output::Parameters { at: 768 },
        27 => Output::Ids { at: 2 },
        28 => Output::Signature { at: 4 },
        _ => Output::Feature { at: 4 },
    }
}

// Spoils of what is kept behind a status, and from 63 on their legal neighbours.
fn spoil_kept(g: Geometry, what: usize) -> Output {
    let lun = sub(g.luns, 1);
    let end = page_size(g);
    match what {
        55 => spoil_output(g, 18),
        56 => spoil_output(g, 19),
        57 => Output::Status { lun: 0 },
        58..=61 => spoil_output(g, sub(what, 37)),
        63 => Output::Register {
            lun,
            column: Column(end),
        },
        64..=67 => spoil_output(g, sub(what, 38)),
        _ => Output::Register {
            lun,
            column: Column(sub(end, 1)),
        },
    }
}

// A bare 00h, with this kept.
fn bare(kept: Output) -> Decoder {
    let cycles = ColumnCycles {
        first: First::Read,
        got: 0,
        low: 0,
    };
    Decoder {
        sequence: Sequence::Columns(cycles),
        output: Output::Nothing,
        kept,
    }
}

// A sequence whose addresses have all come: its second command is due, or it takes data.
fn due(first: First, column: usize, row: usize) -> Sequence {
    Sequence::Due(Wait {
        first,
        column: Column(column),
        row: Row(row),
    })
}

fn filling(first: First, row: usize, at: usize) -> Sequence {
    Sequence::Filling(Fill {
        first,
        row: Row(row),
        at: Column(at),
    })
}

fn moving(first: First, row: usize) -> Sequence {
    Sequence::Moving(Moved {
        first,
        row: Row(row),
        got: 0,
        low: 0,
    })
}

fn setting(got: u8) -> Sequence {
    Sequence::Setting(FeatureBytes { got, value: 0 })
}

// Spoils of the sequence.
fn spoil_sequence(p: Geometry, part: &Part, what: usize) -> Sequence {
    let past = part.row_of(p.luns, 0, 0);
    let end = page_size(p);
    match what {
        31 => due(First::Read, end, 0),
        32 => due(First::Read, 0, past),
        33 => filling(First::Program, 0, add(end, 1)),
        34 => filling(First::Program, past, 0),
        35 => due(First::Erase, 0, past),
        36 => due(First::ChangeColumnEnhanced, 0, past),
        37 => due(First::ChangeColumn, end, 0),
        38 => setting(4),
        39 => due(First::Erase, 0, part.row_of(0, p.blocks, 0)),
        40 => filling(First::Program, part.row_of(0, 0, p.pages), 0),
        41 => due(First::Read, 0, part.row_of(0, p.blocks, 0)),
        42 => moving(First::Program, past),
        50 => filling(First::CopybackProgram, 0, add(end, 1)),
        51 => filling(First::CopybackProgram, past, 0),
        62 => due(First::ChangeColumnInPage, 768, 0),
        _ => moving(First::CopybackProgram, past),
    }
}

// Legal neighbours of these: the largest numbers each field may hold.
fn legal_sequence(p: Geometry, part: &Part, what: usize) -> Sequence {
    let lun = sub(p.luns, 1);
    let end = page_size(p);
    let column = sub(end, 1);
    let block = sub(power(part.block_bits()), 1);
    let page = sub(power(part.page_bits()), 1);
    let last = sub(p.blocks, 1);
    match what {
        43 => filling(First::Program, part.row_of(lun, 0, 0), end),
        44 => due(First::Erase, 0, part.row_of(lun, last, page)),
        45 => due(
            First::ChangeColumnEnhanced,
            column,
            part.row_of(lun, block, page),
        ),
        46 => due(First::Read, column, part.row_of(lun, last, sub(p.pages, 1))),
        69 => due(First::ChangeColumnInPage, 767, 0),
        _ => filling(
            First::CopybackProgram,
            part.row_of(lun, last, sub(p.pages, 1)),
            end,
        ),
    }
}

// An open sequence and an output, with nothing kept.
fn open(sequence: Sequence, output: Output) -> Decoder {
    Decoder {
        sequence,
        output,
        kept: Output::Nothing,
    }
}

// 13 to 17 spoil a lent length, and leave the record.
pub fn spoil(t: &mut Target, part: &Part, what: usize) {
    let p = t.geometry;
    match what {
        0..=12 | 30 | 47 | 54 => spoil_number(t, what),
        13..=17 => {}
        48 => t.words.features |= 1,
        49 => t.words.features &= 0xfffd,
        18..=29 => t.decoder = open(Sequence::Idle, spoil_output(p, what)),
        31..=42 | 50..=52 | 62 => {
            t.decoder = open(spoil_sequence(p, part, what), Output::Nothing);
        }
        55..=61 | 63..=68 => t.decoder = bare(spoil_kept(p, what)),
        70..=74 => spoil_blank(t, what),
        _ => t.decoder = open(legal_sequence(p, part, what), Output::Nothing),
    }
}

// Spoils of one lent length: one short.
pub fn spoil_length(g: &mut State, what: usize) {
    let lengths = &mut g.lengths;
    match what {
        13 => lengths.array = sub(lengths.array, 1),
        14 => lengths.registers = sub(lengths.registers, 1),
        15 => lengths.counts = sub(lengths.counts, 1),
        16 => lengths.flags = sub(lengths.flags, 1),
        17 => lengths.page = sub(lengths.page, 1),
        _ => {}
    }
}

// Lengths that a spoiled geometry would ask, so that only its limits refuse it.
pub fn follow_geometry(t: &Target, g: &mut State) {
    let p = t.geometry;
    g.lengths = Lengths::of(p.luns, p.blocks, p.pages, page_size(p));
}

fn fills_bits(n: usize) -> bool {
    power(bits_for(n)) == n
}

// Some spoils can't be written down for every part.
pub fn pick_spoil(g: &mut State) -> usize {
    let what = g.below(75);
    let part = &g.part;
    match what {
        12 | 30 | 47 | 74 if part.luns == 4 => 11,
        49 if part.luns == 1 => 48,
        39 | 41 if fills_bits(part.blocks) => 35,
        40 if fills_bits(part.pages) => 34,
        _ => what,
    }
}

pub fn is_legal(what: usize) -> bool {
    matches!(what, 25..=29 | 43..=46 | 53 | 54 | 63..=71)
}
