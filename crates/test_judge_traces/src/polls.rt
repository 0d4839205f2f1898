// Polling jobs: a status, then 00h and data out go on with the output before it.
use test_judge_cycles::{
    Kind, address, command, make_all_ready, make_ready, pick_column, pick_length, pick_lun,
    pick_row, put, put_bad, put_column, put_finish, put_row, set_busy, take_out,
};
use test_judge_jobs::{job_get, job_id, job_lun_out, job_out, job_parameters, put_status};
use test_judge_parts::state::State;
use test_kit::numbers::{add, sub};

// 70h, or 78h of this LUN, or at times of any; and perhaps bytes of it.
fn ask_status(g: &mut State, lun: usize) {
    let what = g.below(8);
    let any = pick_lun(g);
    let bytes = g.below(3);
    let lun = if what == 7 { any } else { lun };
    let row = pick_row(g, lun);
    if what < 4 {
        put_status(g);
    } else {
        command(g, 0x78);
        put_row(g, lun, row);
    }
    take_out(g, bytes);
}

// Mostly nothing; or a bench event, which keeps the memory, or a cycle that doesn't fit.
fn put_between(g: &mut State) {
    let what = g.below(24);
    let lun = pick_lun(g);
    match what {
        0 => put_finish(g, lun),
        1 => put(g, Kind::Protect as usize, 1),
        2 => put_bad(g),
        3 => put(g, Kind::Address as usize, 0),
        4 => put(g, Kind::DataIn as usize, 0),
        5 => put(g, Kind::Command as usize, 0xe0),
        6 => put(g, Kind::Command as usize, 0x05),
        _ => {}
    }
}

// None to three statuses, 00h, and n bytes. With care the LUN's finish comes before the statuses, among them, after 00h
// or, one time in eight, not at all.
fn poll(g: &mut State, lun: usize, n: usize) {
    let when = g.below(8);
    let statuses = g.below(8);
    if when < 3 {
        make_ready(g, lun);
    }
    if 0 < statuses {
        ask_status(g, lun);
    }
    if when < 6 {
        make_ready(g, lun);
    }
    if 4 < statuses {
        ask_status(g, lun);
    }
    if 6 < statuses {
        ask_status(g, lun);
    }
    put_between(g);
    command(g, 0x00);
    if when == 6 {
        make_ready(g, lun);
    }
    put_between(g);
    take_out(g, n);
}

// A page read by 30h or 35h and polled for; at times some bytes come first, and at times it is polled for again.
pub fn job_poll(g: &mut State) {
    let lun = pick_lun(g);
    let row = pick_row(g, lun);
    let column = pick_column(g);
    let second = if g.below(4) == 0 { 0x35 } else { 0x30 };
    let first = g.below(8);
    make_ready(g, lun);
    command(g, 0x00);
    put_column(g, column);
    put_row(g, lun, row);
    command(g, second);
    set_busy(g, lun);
    if first < 4 {
        make_ready(g, lun);
        take_out(g, first);
    }
    let n = pick_length(g, column);
    poll(g, lun, n);
    if g.below(3) == 0 {
        let n = add(1, g.below(4));
        poll(g, lun, n);
    }
}

// Output of every other kind, polled for.
pub fn job_poll_other(g: &mut State) {
    let what = g.below(8);
    let n = g.below(6);
    match what {
        0..=2 => job_id(g),
        3 | 4 => job_parameters(g),
        5 => job_get(g),
        6 => job_out(g),
        _ => job_lun_out(g),
    }
    poll(g, g.selected, n);
}

// Columns around the ends of the copies and of a register.
fn page_column(g: &mut State) -> usize {
    let what = g.below(8);
    let more = g.below(3);
    match what {
        0..=2 => add(766, more),
        3 => add(254, more),
        4 => add(511, more),
        5 => add(sub(g.part.size(), 1), more),
        _ => g.below(768),
    }
}

// 05h, which moves within the parameter page where that is open or kept behind 70h.
fn page_move(g: &mut State) {
    let column = page_column(g);
    let n = g.below(4);
    command(g, 0x05);
    put_column(g, column);
    command(g, 0xe0);
    take_out(g, n);
}

// The parameter page, perhaps behind a status or polled for, and moves within it.
pub fn job_page(g: &mut State) {
    let what = g.below(8);
    let again = g.below(4);
    let n = g.below(3);
    make_all_ready(g);
    command(g, 0xec);
    address(g, 0);
    take_out(g, n);
    match what {
        0..=2 => ask_status(g, g.selected),
        3 => poll(g, g.selected, n),
        _ => {}
    }
    put_between(g);
    page_move(g);
    if 0 < again {
        page_move(g);
    }
    if 1 < again {
        ask_status(g, g.selected);
        page_move(g);
    }
    if 2 < again {
        poll(g, g.selected, n);
    }
}

// 00h after whatever came before, with or without a status; perhaps its first address; then data out, and a poll.
pub fn job_bare(g: &mut State) {
    let what = g.below(6);
    let lun = g.selected;
    if what < 4 {
        ask_status(g, lun);
    }
    command(g, 0x00);
    if what % 2 == 1 {
        address(g, 0);
    }
    put_between(g);
    take_out(g, 1);
    poll(g, lun, 1);
}
