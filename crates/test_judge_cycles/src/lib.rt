// The generator's records, bus cycles and addresses.
#![tactic(auto)]

use test_judge_parts::state::State;
use test_kit::numbers::{add, at_most, byte, power, sub};

// The kinds of events; a record's first byte may be any other number too.
#[derive(Clone, Copy, PartialEq, Eq)]
pub enum Kind {
    Command,
    Address,
    DataIn,
    DataOut,
    Finish,
    Protect,
}

impl Kind {
    pub fn number(self) -> u8 {
        self as u8
    }
}

// A record of any two numbers, of which the lowest eight bits stand in it.
pub fn put(g: &mut State, kind: usize, value: usize) {
    g.trace.put(byte(kind), byte(value));
}

pub fn is_busy(g: &State, lun: usize) -> bool {
    g.busy.get(lun) == Some(&true)
}

pub fn set_busy(g: &mut State, lun: usize) {
    if let Some(busy) = g.busy.get_mut(lun) {
        *busy = true;
    }
}

pub fn put_finish(g: &mut State, lun: usize) {
    put(g, Kind::Finish as usize, lun);
    if let Some(busy) = g.busy.get_mut(lun) {
        *busy = false;
    }
}

pub fn put_reset(g: &mut State) {
    put(g, Kind::Command as usize, 0xff);
    g.busy = [false; 4];
    g.selected = 0;
}

pub fn put_bad(g: &mut State) {
    let what = g.below(4);
    let value = g.below(254);
    match what {
        0 => {
            let kind = add(6, g.below(250));
            put(g, kind, value);
        }
        1 => put(g, Kind::DataOut as usize, add(1, value)),
        2 => put(g, Kind::Protect as usize, add(2, value)),
        _ => {
            let lun = at_most(add(g.part.luns, value), 255);
            put(g, Kind::Finish as usize, lun);
        }
    }
}

pub fn pick_lun(g: &mut State) -> usize {
    g.below(g.part.luns)
}

// One bus cycle, and before it what the knobs sprinkle in.
pub fn cycle(g: &mut State, kind: usize, value: usize) {
    if g.chance(g.knobs.sprinkle) {
        let lun = pick_lun(g);
        put_finish(g, lun);
    }
    if g.chance(g.knobs.bad) {
        put_bad(g);
    }
    if g.chance(g.knobs.guard) {
        let level = at_most(g.below(3), 1);
        put(g, Kind::Protect as usize, level);
    }
    if g.chance(g.knobs.reset) {
        put_reset(g);
    }
    put(g, kind, value);
}

pub fn command(g: &mut State, value: usize) {
    cycle(g, Kind::Command as usize, value);
}

pub fn address(g: &mut State, value: usize) {
    cycle(g, Kind::Address as usize, value);
}

pub fn take_out(g: &mut State, n: usize) {
    for _ in 0..n {
        cycle(g, Kind::DataOut as usize, 0);
    }
}

fn edge_row(g: &mut State, lun: usize, block: usize, page: usize) -> usize {
    let what = g.below(10);
    let more = g.below(4);
    let part = &g.part;
    let bits = add(part.page_bits(), part.block_bits());
    match what {
        0 => part.row_of(lun, block, sub(part.pages, 1)),
        1 => part.row_of(lun, block, part.pages),
        2 => part.row_of(lun, block, sub(power(part.page_bits()), 1)),
        3 => part.row_of(lun, sub(part.blocks, 1), page),
        4 => part.row_of(lun, part.blocks, page),
        5 => part.row_of(lun, sub(power(part.block_bits()), 1), page),
        6 => part.row_of(part.luns, block, page),
        7 => part.row_of(add(part.luns, more), block, page),
        8 => part.row_of(add(lun, power(sub(add(20, more), bits))), block, page),
        _ => part.row_of(add(lun, power(add(more, 1))), block, page),
    }
}

// How many of n there are to pick from.
pub fn spot(g: &State, n: usize) -> usize {
    if g.knobs.spot { at_most(n, 2) } else { n }
}

pub fn pick_row(g: &mut State, lun: usize) -> usize {
    let pages = spot(g, g.part.pages);
    let blocks = spot(g, g.part.blocks);
    let page = g.below(pages);
    let block = g.below(blocks);
    if g.chance(g.knobs.edge) {
        edge_row(g, lun, block, page)
    } else {
        g.part.row_of(lun, block, page)
    }
}

// The low bytes of a number as addresses, the lowest first.
fn put_addresses(g: &mut State, n: usize, cycles: usize) {
    for b in n.to_le_bytes().iter().take(cycles) {
        address(g, usize::from(*b));
    }
}

pub fn put_row(g: &mut State, lun: usize, row: usize) {
    put_addresses(g, row, 3);
    g.selected = lun;
}

pub fn put_column(g: &mut State, column: usize) {
    put_addresses(g, column, 2);
}

fn edge_column(g: &mut State) -> usize {
    let what = g.below(7);
    let size = g.part.size();
    match what {
        0 => size,
        1 => add(size, 1),
        2 => 65535,
        3 => add(size, 255),
        4 => 255,
        5 => 256,
        _ => sub(size, 1),
    }
}

pub fn pick_column(g: &mut State) -> usize {
    let size = g.part.size();
    let what = g.below(4);
    if g.chance(g.knobs.edge) {
        return edge_column(g);
    }
    match what {
        0 => 0,
        1 => sub(sub(size, 1), g.below(12)),
        _ => g.below(size),
    }
}

// How much data from a column on: near the end it goes to the end, or past it.
pub fn pick_length(g: &mut State, column: usize) -> usize {
    let left = g.part.size().saturating_sub(column);
    let some = g.below(8);
    let past = g.chance(g.knobs.past);
    if past && left <= 600 {
        add(left, 1 + some % 2)
    } else if left <= 16 {
        left
    } else {
        some
    }
}

pub fn make_ready(g: &mut State, lun: usize) {
    if g.knobs.care && is_busy(g, lun) {
        put_finish(g, lun);
    }
}

pub fn make_all_ready(g: &mut State) {
    for lun in 0..g.part.luns {
        make_ready(g, lun);
    }
}

// After 30h, 35h, 10h, D0h: half of the time the finish follows.
pub fn begin_work(g: &mut State, lun: usize) {
    set_busy(g, lun);
    if g.half() {
        make_ready(g, lun);
    }
}
