// Rule 13: the record's numbers, each taken by itself, and the lengths of the lent buffers.
ghost use Rattle.std.specs.Prelude.{◌≡◌};
ghost use Rattle.target.specs.declared.Sequence.TheVariants as sequence;
ghost use Rattle.step.specs.Usable.{column_held, row_held, sequence_sound, output_sound, kept_sound, mark_sound, marks_sound, words_sound, record_sound, usable};

use rules::row_fits;
use target::address::row_exists;
use target::bits::has_feature;
use target::commands::{
    cycles_of, in_page, takes_column, takes_program_data, takes_row, waits_second,
};
use target::place::shows_status;
use target::records::{is_unused, lun_at};
use target::sizes::{column_end, in_limits, page_size, sized};
use target::{
    Column, Fill, First, Geometry, Luns, Output, Row, RowCycles, Sequence, Target, Wait, Words,
};

pub fn column_held(g: Geometry, f: First, c: Column) -> bool
    ensures { result ≡ column_held g f c }
{
    if takes_column(f) {
        c.0 < column_end(g, in_page(f))
    } else {
        c.0 == 0
    }
}

pub fn row_held(g: Geometry, f: First, r: Row) -> bool
    ensures { result ≡ row_held g f r }
{
    if takes_row(f) {
        row_fits(g, f, r)
    } else {
        r.0 == 0
    }
}

pub fn rows_sound(g: Geometry, k: RowCycles) -> bool
    ensures { result ≡ sequence_sound g (sequence.Rows k) }
{
    takes_row(k.first) && k.got < 3 && column_held(g, k.first, k.column)
}

pub fn wait_sound(g: Geometry, k: Wait) -> bool
    ensures { result ≡ sequence_sound g (sequence.Due k) }
{
    waits_second(k.first) && column_held(g, k.first, k.column) && row_held(g, k.first, k.row)
}

pub fn fill_sound(g: Geometry, k: Fill) -> bool
    ensures { result ≡ sequence_sound g (sequence.Filling k) }
{
    takes_program_data(k.first) && k.at.0 <= page_size(g) && row_exists(g, k.row)
}

pub fn sequence_sound(g: Geometry, s: Sequence) -> bool
    ensures { result ≡ sequence_sound g s }
{
    match s {
        Sequence::Idle => true,
        Sequence::Columns(k) => takes_column(k.first) && k.got < 2,
        Sequence::Rows(k) => rows_sound(g, k),
        Sequence::Single(f) => cycles_of(f) == 1,
        Sequence::Due(k) => wait_sound(g, k),
        Sequence::Filling(k) => fill_sound(g, k),
        Sequence::Moving(k) => takes_program_data(k.first) && k.got < 2 && row_exists(g, k.row),
        Sequence::Setting(k) => k.got < 4 && (k.value == 0 || k.value == 0x40),
    }
}

pub fn output_sound(g: Geometry, o: Output) -> bool
    ensures { result ≡ output_sound g o }
{
    match o {
        Output::Nothing => true,
        Output::Register { lun, column } => lun < g.luns && column.0 <= page_size(g),
        Output::Parameters { at } => at <= 768,
        Output::Status { lun } => lun < g.luns,
        Output::Ids { at } => at <= 2,
        Output::Signature { at } | Output::Feature { at } => at <= 4,
    }
}

// What is kept is never a status.
pub fn kept_sound(g: Geometry, o: Output) -> bool
    ensures { result ≡ kept_sound g o }
{
    output_sound(g, o) && !shows_status(o)
}

// A LUN that exists has at most its blocks blank; one past the count is as power-on left it.
pub fn mark_sound(g: Geometry, luns: Luns, l: usize) -> bool
    ensures { result ≡ mark_sound g luns l }
{
    let x = lun_at(luns, l);
    if l < g.luns {
        x.blank as usize <= g.blocks
    } else {
        is_unused(x)
    }
}

pub fn marks_sound(g: Geometry, luns: Luns) -> bool
    ensures { result ≡ marks_sound g luns }
{
    mark_sound(g, luns, 0)
        && mark_sound(g, luns, 1)
        && mark_sound(g, luns, 2)
        && mark_sound(g, luns, 3)
}

pub fn words_sound(g: Geometry, w: Words) -> bool
    ensures { result ≡ words_sound g w }
{
    !has_feature(w, 0) && (g.luns <= 1 || has_feature(w, 1))
}

#[tactic(auto, unfolding(crate::specs::Usable::record_sound))]
pub fn record_sound(t: Target) -> bool
    ensures { result ≡ record_sound t }
{
    let g = t.geometry;
    let d = t.decoder;
    t.powered
        && in_limits(g)
        && words_sound(g, t.words)
        && t.selected < g.luns
        && marks_sound(g, t.luns)
        && sequence_sound(g, d.sequence)
        && output_sound(g, d.output)
        && kept_sound(g, d.kept)
}

// Rule 13 does not hold. The lengths are multiplied out only within the limits.
#[tactic(auto, unfolding(crate::specs::Usable::usable))]
pub fn usable(
    t: Target,
    params: usize,
    array: usize,
    registers: usize,
    counts: usize,
    flags: usize,
) -> bool
    ensures { result ≡ usable t params array registers counts flags }
{
    record_sound(t) && params == 256 && sized(t.geometry, array, registers, counts, flags)
}
