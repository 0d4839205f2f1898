// Noise, wrong cycles, and whole traces.
use crate::job::{do_job, drawn_job};
use test_judge_cycles::{Kind, pick_lun, put, put_bad, put_reset};
use test_judge_parts::knobs::TraceKind;
use test_judge_parts::state::State;
use test_kit::numbers::{add, byte, sub, times};

// The commands there are; FFh comes last, so that it is easily left out.
const COMMANDS: [u8; 18] = [
    0x00, 0x05, 0x06, 0x10, 0x30, 0x35, 0x60, 0x70, 0x78, 0x80, 0x85, 0x90, 0xd0, 0xe0, 0xec, 0xee,
    0xef, 0xff,
];

fn near_command(g: &mut State) -> u8 {
    match g.below(40) {
        0 => 0xff,
        1 | 2 => g.any_byte(),
        _ => COMMANDS[g.below(17)],
    }
}

fn near_address(g: &mut State) -> u8 {
    match g.below(8) {
        0 => g.any_byte(),
        1 => 32,
        2 => byte(g.below(16)),
        _ => byte(g.below(2)),
    }
}

fn near_data(g: &mut State) -> u8 {
    match g.below(4) {
        0 => g.any_byte(),
        1 => 64,
        _ => 0,
    }
}

// One record that looks like an event.
fn near_record(g: &mut State) {
    let (kind, value) = match g.below(32) {
        0..=7 => (Kind::Command, near_command(g)),
        8..=18 => (Kind::Address, near_address(g)),
        19..=21 => (Kind::DataIn, near_data(g)),
        22..=27 => (Kind::DataOut, 0),
        28 | 29 => (Kind::Finish, byte(pick_lun(g))),
        30 => (Kind::Protect, byte(g.below(2))),
        _ => return put_bad(g),
    };
    put(g, kind as usize, usize::from(value));
}

fn noise_record(g: &mut State) {
    let kind = byte(g.below(7));
    let value = g.any_byte();
    let kind = if kind == 6 { g.any_byte() } else { kind };
    g.trace.put(kind, value);
}

// Puts a wrong cycle at byte 'at'.
fn wrong_at(g: &mut State, at: usize) {
    match g.below(6) {
        0 => {
            let value = g.any_byte();
            g.trace.set(add(at, 1), value);
        }
        1 => {
            g.trace.set(at, Kind::Command.number());
            let value = near_command(g);
            g.trace.set(add(at, 1), value);
        }
        2 => g.trace.remove(at),
        3 => {
            near_record(g);
            g.trace.move_back(at);
        }
        4 => {
            let kind = byte(g.below(4));
            g.trace.set(at, kind);
        }
        _ => {
            let kind = g.trace.get(at);
            let value = g.trace.get(add(at, 1));
            g.trace.put(kind, value);
            g.trace.move_back(at);
        }
    }
}

// One wrong cycle in the job that began at byte 'from'.
fn make_wrong(g: &mut State, from: usize) {
    let n = sub(g.trace.len(), from) / 2;
    if n != 0 && g.trace.has_room() {
        let at = add(from, times(2, g.below(n)));
        wrong_at(g, at);
    }
}

fn put_job(g: &mut State, kind: TraceKind) {
    let from = g.trace.len();
    let job = drawn_job(g, kind);
    do_job(g, job);
    if g.chance(g.knobs.wrong) {
        make_wrong(g, from);
    }
}

// Noise, or a job.
fn put_some(g: &mut State, kind: TraceKind) {
    match kind {
        TraceKind::NearNoise => near_record(g),
        TraceKind::Noise => noise_record(g),
        _ => put_job(g, kind),
    }
}

// Until there are as many as the knob says; the number of turns only ends the loop, and is never met.
fn put_all(g: &mut State, kind: TraceKind) {
    let end = times(g.knobs.records, 2);
    for _ in 0..1000000 {
        if end <= g.trace.len() {
            return;
        }
        put_some(g, kind);
    }
}

// A record before the first FFh, which is none itself.
fn put_early_record(g: &mut State) {
    let at = g.trace.len();
    near_record(g);
    if g.trace.get(at) == 0 && g.trace.get(add(at, 1)) == 0xff {
        let kind = byte(add(1, g.below(2)));
        g.trace.set(at, kind);
    }
}

// Before the first FFh: cycles of every kind, FFh only as address or data.
fn put_early(g: &mut State) {
    for _ in 0..add(4, g.below(24)) {
        put_early_record(g);
    }
    put(g, Kind::Address as usize, 0xff);
    put(g, Kind::DataIn as usize, 0xff);
    let level = g.below(2);
    put(g, Kind::Protect as usize, level);
    put_reset(g);
    put(g, Kind::Protect as usize, 1);
}

// By the kind's number.
pub fn make_trace(g: &mut State, kind: usize, fresh: bool) {
    make(g, TraceKind::from(kind), fresh);
}

fn make(g: &mut State, kind: TraceKind, fresh: bool) {
    g.trace.clear();
    if kind == TraceKind::Early {
        put_early(g);
    } else if fresh {
        put_reset(g);
    }
    put_all(g, kind);
}
