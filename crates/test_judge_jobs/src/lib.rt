// The generator's jobs: whole command sequences.
#![tactic(auto)]

use test_judge_cycles::{
    Kind, address, begin_work, command, cycle, is_busy, make_all_ready, make_ready, pick_column,
    pick_length, pick_lun, pick_row, put, put_column, put_finish, put_row, spot, take_out,
};
use test_judge_parts::state::State;
use test_kit::numbers::{add, times};

// A LUN and a row of it.
fn pick_place(g: &mut State) -> (usize, usize) {
    let lun = pick_lun(g);
    let row = pick_row(g, lun);
    (lun, row)
}

// Data out, as much as there may be from a column on.
fn take_from(g: &mut State, column: usize) {
    let n = pick_length(g, column);
    take_out(g, n);
}

// 00h, a row, and 30h or 35h.
fn load_page(g: &mut State, lun: usize, row: usize, second: usize) {
    let column = pick_column(g);
    make_ready(g, lun);
    command(g, 0x00);
    put_column(g, column);
    put_row(g, lun, row);
    command(g, second);
    begin_work(g, lun);
    if g.half() {
        take_from(g, column);
    }
}

fn read_page(g: &mut State, lun: usize, row: usize) {
    load_page(g, lun, row, 0x30);
}

pub fn job_read(g: &mut State) {
    let (lun, row) = pick_place(g);
    read_page(g, lun, row);
}

pub fn job_lun_out(g: &mut State) {
    let (lun, row) = pick_place(g);
    let column = pick_column(g);
    make_ready(g, lun);
    command(g, 0x06);
    put_column(g, column);
    put_row(g, lun, row);
    command(g, 0xe0);
    take_from(g, column);
}

pub fn job_out(g: &mut State) {
    let column = pick_column(g);
    make_ready(g, g.selected);
    command(g, 0x05);
    put_column(g, column);
    command(g, 0xe0);
    take_from(g, column);
}

fn give_data(g: &mut State, column: usize) {
    for _ in 0..pick_length(g, column) {
        let value = g.any_byte();
        cycle(g, Kind::DataIn as usize, usize::from(value));
    }
}

fn move_data(g: &mut State) {
    let column = pick_column(g);
    command(g, 0x85);
    put_column(g, column);
    give_data(g, column);
}

// 80h or 85h, a row, data and moves, 10h.
fn fill_page(g: &mut State, lun: usize, row: usize, first: usize) {
    let column = pick_column(g);
    let moves = g.below(3);
    make_ready(g, lun);
    command(g, first);
    put_column(g, column);
    put_row(g, lun, row);
    give_data(g, column);
    for _ in 0..moves {
        move_data(g);
    }
    command(g, 0x10);
    begin_work(g, lun);
}

fn program_page(g: &mut State, lun: usize, row: usize) {
    fill_page(g, lun, row, 0x80);
}

pub fn job_program(g: &mut State) {
    let (lun, row) = pick_place(g);
    program_page(g, lun, row);
}

fn erase_block(g: &mut State, lun: usize, row: usize) {
    make_ready(g, lun);
    command(g, 0x60);
    put_row(g, lun, row);
    command(g, 0xd0);
    begin_work(g, lun);
}

pub fn job_erase(g: &mut State) {
    let (lun, row) = pick_place(g);
    erase_block(g, lun, row);
}

// One to three status bytes.
fn take_status(g: &mut State) {
    let n = add(1, g.below(3));
    take_out(g, n);
}

pub fn job_lun_status(g: &mut State) {
    let (lun, row) = pick_place(g);
    command(g, 0x78);
    put_row(g, lun, row);
    take_status(g);
    if is_busy(g, lun) && g.half() {
        put_finish(g, lun);
        take_out(g, 1);
    }
}

// 70h; with care, no LUN but the selected one works.
pub fn put_status(g: &mut State) {
    for lun in 0..g.part.luns {
        if lun != g.selected {
            make_ready(g, lun);
        }
    }
    command(g, 0x70);
}

pub fn job_status(g: &mut State) {
    put_status(g);
    take_status(g);
}

// A command with one address, which at an edge is below `edge`, times `step`.
fn short_command(g: &mut State, value: usize, edge: usize, step: usize, right: usize) {
    make_all_ready(g);
    command(g, value);
    let place = if g.chance(g.knobs.edge) {
        times(g.below(edge), step)
    } else {
        right
    };
    address(g, place);
}

pub fn job_id(g: &mut State) {
    let (right, most) = if g.half() { (32, 7) } else { (0, 5) };
    short_command(g, 0x90, 256, 1, right);
    let n = g.below(most);
    take_out(g, n);
}

fn parameter_count(g: &mut State) -> usize {
    let what = g.below(4);
    let more = g.below(3);
    if !g.chance(g.knobs.long) {
        return g.below(12);
    }
    match what {
        0 => add(255, more),
        1 => add(511, more),
        _ => add(768, more),
    }
}

pub fn job_parameters(g: &mut State) {
    short_command(g, 0xec, 2, 32, 0);
    let n = parameter_count(g);
    take_out(g, n);
}

pub fn job_get(g: &mut State) {
    short_command(g, 0xee, 4, 1, 1);
    let n = g.below(7);
    take_out(g, n);
}

fn feature_value(g: &mut State, place: usize) -> u8 {
    match (g.below(16), place) {
        (0, _) => g.any_byte(),
        (1, _) | (2..=9, 0) => 64,
        _ => 0,
    }
}

pub fn job_set(g: &mut State) {
    short_command(g, 0xef, 4, 1, 1);
    let n = if g.below(8) == 0 { g.below(6) } else { 4 };
    for place in 0..n {
        let value = feature_value(g, place);
        cycle(g, Kind::DataIn as usize, usize::from(value));
    }
}

// A row of 80h, whole or one cycle short, or of 60h, and a command that doesn't fit.
pub fn job_give_up(g: &mut State) {
    let what = g.below(3);
    let (lun, row) = pick_place(g);
    make_ready(g, lun);
    if what == 2 {
        command(g, 0x60);
    } else {
        command(g, 0x80);
        put_column(g, 0);
    }
    if what == 0 {
        address(g, row);
        address(g, row / 256);
    } else {
        put_row(g, lun, row);
    }
    command(g, 0x70);
}

pub fn job_copy_read(g: &mut State) {
    let (lun, row) = pick_place(g);
    load_page(g, lun, row, 0x35);
}

pub fn job_copy_write(g: &mut State) {
    let (lun, row) = pick_place(g);
    fill_page(g, lun, row, 0x85);
}

// What may come between a copyback's halves: half of the time nothing.
fn between_halves(g: &mut State) {
    match g.below(12) {
        0 => job_program(g),
        1 => job_erase(g),
        2 => job_read(g),
        3 => job_lun_status(g),
        4 => job_copy_read(g),
        5 => job_give_up(g),
        _ => {}
    }
}

// A page copied, mostly inside its LUN; at times once more, and at times read back.
pub fn job_copy(g: &mut State) {
    let (from, row) = pick_place(g);
    load_page(g, from, row, 0x35);
    between_halves(g);
    let lun = if g.below(6) == 0 { pick_lun(g) } else { from };
    let row = pick_row(g, lun);
    fill_page(g, lun, row, 0x85);
    if g.below(4) == 0 {
        fill_page(g, lun, row, 0x85);
    }
    if g.below(2) == 0 {
        read_page(g, lun, row);
    }
}

// The line goes low, something is tried, and mostly it goes high again.
pub fn job_low(g: &mut State) {
    let what = g.below(4);
    let back = g.below(8);
    make_all_ready(g);
    put(g, Kind::Protect as usize, 0);
    match what {
        0 => job_program(g),
        1 => job_erase(g),
        2 => job_read(g),
        _ => job_copy(g),
    }
    make_all_ready(g);
    job_status(g);
    if back != 0 {
        put(g, Kind::Protect as usize, 1);
    }
}

pub fn job_finish(g: &mut State) {
    let luns = g.part.luns;
    for lun in 0..luns {
        if g.half() {
            put_finish(g, lun);
        }
    }
    let last = g.below(add(luns, 2));
    put_finish(g, last);
}

// A program and its status.
fn program_looked(g: &mut State, lun: usize, row: usize) {
    program_page(g, lun, row);
    make_ready(g, lun);
    job_status(g);
}

// The same, and the page read back.
pub fn job_back(g: &mut State) {
    let (lun, row) = pick_place(g);
    program_looked(g, lun, row);
    read_page(g, lun, row);
}

// The same page until its count is full and once more; then perhaps an erase.
pub fn job_twice(g: &mut State) {
    let (lun, row) = pick_place(g);
    let n = add(1, g.below(add(g.part.programs, 1)));
    for _ in 0..n {
        program_looked(g, lun, row);
    }
    if g.below(3) == 0 {
        erase_block(g, lun, row);
    }
}

// The page to program after this one: one lower (ways 0, 1), one higher (2), at times the same, else any.
fn next_page(g: &mut State, way: usize, page: usize) -> usize {
    let pages = g.part.pages;
    let any = g.below(pages);
    if g.below(4) == 0 {
        return page;
    }
    match way {
        0 | 1 if 0 < page => page - 1,
        2 if add(page, 1) < pages => add(page, 1),
        _ => any,
    }
}

// Programs in one block, downward, upward or anyhow; half of the time it is erased first.
pub fn job_order(g: &mut State) {
    let lun = pick_lun(g);
    let blocks = spot(g, g.part.blocks);
    let block = g.below(blocks);
    let mut page = g.below(g.part.pages);
    let way = g.below(4);
    let n = add(2, g.below(3));
    if g.below(2) == 0 {
        let row = g.part.row_of(lun, block, page);
        erase_block(g, lun, row);
    }
    for _ in 0..n {
        let row = g.part.row_of(lun, block, page);
        program_looked(g, lun, row);
        page = next_page(g, way, page);
    }
}
