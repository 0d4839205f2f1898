// Work on the lent buffers: each kind of work is a call of a cell on a part. What a function asks is a `requires`, as in `blocks`.
ghost use Rattle.std.specs.Prelude.{◌≡◌, true, ◌+◌, ◌*◌, ◌≤◌, ◌<◌, length, get_or, set};
ghost use Rattle.target.specs.Pick.{pick};
ghost use Rattle.target.specs.Address.{row_exists, block_exists};
ghost use Rattle.target.specs.Sizes.{page_size, in_limits};
ghost use Rattle.target.specs.declared.Work.TheVariants as work;
ghost use Rattle.step.specs.Usable.{sequence_sound, output_sound};
ghost use Rattle.blocks.specs.Blocks.{block_index, page_index, block_bad, page_full, higher_written, out_of_order};
ghost use Rattle.step.specs.Buffers.{registers_after, array_after, counts_after, proceeds, was_blank, nothing_found, ended_findings, findings, status_of, output_byte};
ghost use Rattle.step.specs.Step.{Sizes, Ready, Reaches, EnderReaches};

use blocks::{blank_block, block_bad, block_index, out_of_order, page_full, page_index};
use slices::{and_part, byte_at, copy_part, fill, fill_part, put, put_part};
use target::address::lun_of;
use target::commands::{Act, second_row};
use target::events::Kind;
use target::records::lun_at;
use target::sizes::page_size;
use target::views::{Ended, ending};
use target::{Column, Event, Findings, Geometry, Output, Row, Sequence, Target, Words, Work};

// A program does not proceed on a bad block, on a full page or out of order, an erase not on a bad block.
#[tactic(auto, unfolding(crate::specs::Step::Reaches))]
pub fn proceeds(g: Geometry, w: Words, a: Act, r: Row, counts: &[u8], flags: &[u8]) -> bool
    requires g_value { in_limits g ≡ true }
    requires reaches { Reaches g a r }
    ensures { result ≡ proceeds g w a r counts.now flags.now }
{
    match a {
        Act::Program => {
            !(block_bad(g, r, flags) || page_full(g, r, counts) || out_of_order(g, w, r, counts))
        }
        Act::Erase => !block_bad(g, r, flags),
        Act::Nothing | Act::Load | Act::Move => true,
    }
}

// The block that is to be programmed or erased is blank.
#[tactic(auto, unfolding(crate::specs::Step::Reaches))]
pub fn was_blank(g: Geometry, a: Act, r: Row, counts: &[u8], flags: &[u8]) -> bool
    requires g_value { in_limits g ≡ true }
    requires reaches { Reaches g a r }
    ensures { result ≡ was_blank g a r counts.now flags.now }
{
    match a {
        Act::Program => blank_block(g, block_index(g, r), counts, flags),
        Act::Erase => blank_block(g, block_index(g, r), counts, flags),
        Act::Nothing | Act::Load | Act::Move => false,
    }
}

// An event that starts no work.
pub fn nothing_found() -> Findings
    ensures { result ≡ nothing_found }
{
    Findings {
        proceeds: true,
        blank: false,
    }
}

#[tactic(auto, unfolding(crate::specs::Step::EnderReaches))]
pub fn ended_findings(
    g: Geometry,
    w: Words,
    k: Option<Ended>,
    counts: &[u8],
    flags: &[u8],
) -> Findings
    requires g_value { in_limits g ≡ true }
    requires ender_reaches { EnderReaches g k }
    ensures { result ≡ ended_findings g w k counts.now flags.now }
{
    match k {
        Some(k) => {
            let act = second_row(k.second).act;
            Findings {
                proceeds: proceeds(g, w, act, k.row, counts, flags),
                blank: was_blank(g, act, k.row, counts, flags),
            }
        }
        None => nothing_found(),
    }
}

// What the buffers say of the event that comes: only a command can start work that does not proceed.
#[tactic(auto, unfolding(crate::specs::Buffers::findings))]
pub fn findings(
    g: Geometry,
    w: Words,
    s: Sequence,
    e: Event,
    counts: &[u8],
    flags: &[u8],
) -> Findings
    requires { (in_limits g ≡ true) × (sequence_sound g s ≡ true) }
    ensures { result ≡ findings g w s e counts.now flags.now }
{
    if e.is(Kind::Command) {
        ended_findings(g, w, ending(s, e.value), counts, flags)
    } else {
        nothing_found()
    }
}

// `n` where the test holds, else 0.
pub fn weigh(b: bool, n: u8) -> u8
    ensures { (result ≡ pick b n 0) × (result ≤ n) }
{
    if b { n } else { 0 }
}

#[tactic(auto, unfolding(crate::specs::Buffers::status_of))]
pub fn status(t: Target, l: usize) -> u8
    ensures { result ≡ status_of t l }
{
    let lun = lun_at(t.luns, l);
    let ready = !lun.working;
    weigh(t.high, 128) + weigh(ready, 96) + weigh(ready && lun.fail, 1)
}

#[tactic(auto, unfolding(crate::specs::Buffers::output_byte))]
pub fn output_byte(t: Target, params: &[u8], registers: &[u8], o: Output) -> u8
    requires { (in_limits t.geometry ≡ true) × (output_sound t.geometry o ≡ true) }
    ensures { result ≡ output_byte t params.now registers.now o }
{
    let g = t.geometry;
    match o {
        Output::Nothing => 0,
        Output::Register { lun, column } => byte_at(registers, lun * page_size(g) + column.0),
        Output::Parameters { at } => byte_at(params, at % 256),
        Output::Status { lun } => status(t, lun),
        Output::Ids { at: 0 } => t.ids.maker,
        Output::Ids { .. } => t.ids.device,
        Output::Signature { at: 0 } => 0x4f,
        Output::Signature { at: 1 } => 0x4e,
        Output::Signature { at: 2 } => 0x46,
        Output::Signature { .. } => 0x49,
        Output::Feature { at: 0 } if t.clear => 0x40,
        Output::Feature { .. } => 0,
    }
}

// 30h: the page into its LUN's register.
#[tactic(auto, unfolding(crate::specs::Buffers::registers_after))]
pub fn load(g: Geometry, r: Row, array: &[u8], registers: &mut [u8])
    requires g_value { (in_limits g ≡ true) × (row_exists g r ≡ true) }
    requires array_len { (length array.now ≡ g.luns * g.blocks * g.pages * page_size g) × (length registers.old ≡ g.luns * page_size g) }
    ensures { registers.new ≡ registers_after g (work.Load r) array.now registers.old }
{
    let p = page_size(g);
    let at = lun_of(g, r) * p;
    let from = page_index(g, r) * p;
    copy_part(registers, at, p, array, from)
}

// A data-in byte: the addressed LUN's part of the register buffer is lent on, and written at the column.
#[tactic(auto, unfolding(crate::specs::Buffers::registers_after))]
pub fn store(g: Geometry, l: usize, c: Column, v: u8, registers: &mut [u8])
    requires { (l < g.luns) × (c.0 < page_size g) × (length registers.old ≡ g.luns * page_size g) }
    ensures { registers.new ≡ registers_after g (work.Put l c v) registers.old registers.old }
{
    let p = page_size(g);
    put_part(registers, l * p, p, c.0, v)
}

// 10h: the register ANDed into the page, and one program more.
#[tactic(auto, unfolding(crate::specs::Buffers::array_after, crate::specs::Buffers::counts_after))]
pub fn burn(g: Geometry, r: Row, array: &mut [u8], registers: &[u8], counts: &mut [u8])
    requires g_value { (in_limits g ≡ true) × (row_exists g r ≡ true) × (get_or counts.old (page_index g r) 0 < 255) }
    requires sizes { Sizes g array.old registers.now counts.old }
    ensures array { array.new ≡ array_after g (work.Program r) array.old registers.now }
    ensures counts { counts.new ≡ counts_after g (work.Program r) counts.old }
{
    let p = page_size(g);
    let i = page_index(g, r);
    and_part(array, i * p, p, registers, lun_of(g, r) * p);
    put(counts, i, byte_at(counts, i) + 1)
}

// D0h: the block's bytes FFh, its counts 0.
#[tactic(auto, unfolding(crate::specs::Buffers::array_after, crate::specs::Buffers::counts_after))]
pub fn wipe(g: Geometry, r: Row, array: &mut [u8], counts: &mut [u8])
    requires g_value { (in_limits g ≡ true) × (block_exists g r ≡ true) }
    requires array_len { (length array.old ≡ g.luns * g.blocks * g.pages * page_size g) × (length counts.old ≡ g.luns * g.blocks * g.pages) }
    ensures array { array.new ≡ array_after g (work.Erase r) array.old array.old }
    ensures counts { counts.new ≡ counts_after g (work.Erase r) counts.old }
{
    let p = page_size(g);
    let n = g.pages;
    let first = block_index(g, r) * n;
    fill_part(array, first * p, n * p, 0xff);
    fill_part(counts, first, n, 0)
}

#[tactic(auto, unfolding(crate::specs::Buffers::registers_after))]
pub fn clear_one(g: Geometry, l: usize, registers: &mut [u8])
    requires { (l < g.luns) × (length registers.old ≡ g.luns * page_size g) }
    ensures { registers.new ≡ registers_after g (work.ClearOne l) registers.old registers.old }
{
    let p = page_size(g);
    fill_part(registers, l * p, p, 0xff)
}

// The work, on whichever buffers it is for.
#[tactic(auto, unfolding(crate::specs::Step::Ready, crate::specs::Buffers::array_after, crate::specs::Buffers::counts_after, crate::specs::Buffers::registers_after))]
pub fn perform(g: Geometry, w: Work, array: &mut [u8], registers: &mut [u8], counts: &mut [u8])
    requires g_value { in_limits g ≡ true }
    requires ready { Ready g w counts.old }
    requires sizes { Sizes g array.old registers.old counts.old }
    ensures array { array.new ≡ array_after g w array.old registers.old }
    ensures registers { registers.new ≡ registers_after g w array.old registers.old }
    ensures counts { counts.new ≡ counts_after g w counts.old }
{
    match w {
        Work::Nothing => {}
        Work::ClearAll => fill(registers, 0xff),
        Work::ClearOne { lun } => clear_one(g, lun, registers),
        Work::Load { row } => load(g, row, array, registers),
        Work::Put { lun, column, value } => store(g, lun, column, value, registers),
        Work::Program { row } => burn(g, row, array, registers, counts),
        Work::Erase { row } => wipe(g, row, array, counts),
    }
}
