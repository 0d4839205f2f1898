// Power-on: damaged parts, limits, single bytes.
use test_judge_cycles::{put_bad, put_reset};
use test_judge_parts::knobs::TraceKind;
use test_judge_parts::parts::{Counts, Part, fill_buffers, make_page, mend_crc};
use test_judge_parts::show::show;
use test_judge_parts::state::State;
use test_judge_runs::Bench;
use test_judge_traces::job::{Job, one_job};
use test_kit::numbers::{add, byte, power, set, sub, times};

// What is wrong with a part: a damage for each refusal of power-on, 20 to 25.
#[derive(Clone, Copy, PartialEq, Eq)]
enum Damage {
    PageLength,
    Signature,
    Crc,
    Field,
    Length,
    Content,
}

impl Damage {
    const ALL: [Damage; 6] = [
        Damage::PageLength,
        Damage::Signature,
        Damage::Crc,
        Damage::Field,
        Damage::Length,
        Damage::Content,
    ];

    // Every two of them, in order.
    const PAIRS: [[Damage; 2]; 15] = [
        [Damage::PageLength, Damage::Signature],
        [Damage::PageLength, Damage::Crc],
        [Damage::PageLength, Damage::Field],
        [Damage::PageLength, Damage::Length],
        [Damage::PageLength, Damage::Content],
        [Damage::Signature, Damage::Crc],
        [Damage::Signature, Damage::Field],
        [Damage::Signature, Damage::Length],
        [Damage::Signature, Damage::Content],
        [Damage::Crc, Damage::Field],
        [Damage::Crc, Damage::Length],
        [Damage::Crc, Damage::Content],
        [Damage::Field, Damage::Length],
        [Damage::Field, Damage::Content],
        [Damage::Length, Damage::Content],
    ];
}

// Limits at power-on: the values of each field.
const LIMITS: [usize; 58] = [
    // data bytes
    0, 15, 16, 17, 16383, 16384, 16385, 65552, 16777232,
    // spare bytes
    0, 1, 2047, 2048, 2049, 65535,
    // pages
    0, 1, 2, 255, 256, 257, 65537, 16777217,
    // blocks
    0, 1, 2, 4095, 4096, 4097, 65537, 16777217,
    // LUNs
    0, 1, 2, 3, 4, 5, 255,
    // programs
    0, 1, 2, 7, 8, 9, 255,
    // address cycles
    0, 34, 35, 36, 51, 19, 163,
    // a wide bus, many LUNs, options
    0, 1, 0, 1, 0, 63,
];

// One field at a limit or past it.
fn set_limit(part: &mut Part, i: usize) {
    let limit = LIMITS.get(i).copied().unwrap_or(0);
    match i {
        0..=8 => part.data = limit,
        9..=14 => part.spare = limit,
        15..=22 => part.pages = limit,
        23..=30 => part.blocks = limit,
        31..=37 => part.luns = limit,
        38..=44 => part.programs = limit,
        45..=51 => part.cycles = limit,
        52 | 53 => part.wide = limit == 1,
        54 | 55 => part.many = limit == 1,
        _ => part.options = limit,
    }
}

// Here and below what is spoiled is drawn as a number, as the C program of judge/ draws it.
fn bad_field(g: &mut State) {
    let what = g.below(9);
    let part = &mut g.part;
    match what {
        0 => part.data = 15,
        1 => part.spare = 2049,
        2 => part.pages = 257,
        3 => part.blocks = 4097,
        4 => part.luns = 5,
        5 => part.programs = 9,
        6 => part.cycles = 34,
        7 => part.wide = true,
        _ => {
            // bit 1 matters with more than one LUN only
            part.many = false;
            part.luns = 2;
        }
    }
}

// One byte less or more than a length.
fn bad_length(g: &mut State) {
    let which = g.below(4);
    let more = g.below(2);
    let lengths = &mut g.lengths;
    let length = match which {
        0 => &mut lengths.array,
        1 => &mut lengths.registers,
        2 => &mut lengths.counts,
        _ => &mut lengths.flags,
    };
    *length = sub(add(*length, times(2, more)), 1);
}

fn bad_content(g: &mut State, bench: &mut Bench) {
    let b = &mut bench.buffers;
    let what = g.below(4);
    let count = g.below(g.lengths.counts);
    let flag = g.below(g.lengths.flags);
    match what {
        0 => set(&mut b.counts, count, add(g.part.programs, 1)),
        1 => set(&mut b.counts, count, 255),
        2 => set(&mut b.flags, flag, 2),
        _ => set(&mut b.flags, flag, 255),
    }
}

// Flips a bit of a byte, drawn.
fn flip(g: &mut State, page: &mut [u8], at: usize) {
    let bit = byte(power(g.below(8)));
    if let Some(b) = page.get_mut(at) {
        *b ^= bit;
    }
}

fn bad_page_length(g: &mut State) {
    g.lengths.page = match g.below(3) {
        0 => 255,
        1 => 257,
        _ => g.below(255),
    };
}

// The trace after a power-on: each job, or where it was refused a bad record.
fn make_case(g: &mut State, answer: usize) {
    g.trace.clear();
    put_reset(g);
    if answer == 0 {
        for job in Job::ALL {
            one_job(g, job as usize);
        }
    } else {
        put_bad(g);
    }
}

// Powers on as lent, then tries each job on what came of it.
fn power_case(rt: HostRuntime, g: &mut State, bench: &mut Bench) {
    let answer = bench.power_on(g);
    g.tally.refuse(answer);
    bench.absorb_buffers(g);
    show(rt, g, "power", [answer, 0, 0, 0]);
    bench.absorb_blanks(rt, g);
    make_case(g, answer);
    bench.run_trace(rt, g);
    bench.absorb_buffers(g);
    show(rt, g, "buffers", [0; 4]);
    g.number = add(g.number, 1);
}

// Damages a part before its page is made.
fn damage_part(g: &mut State, damages: &[Damage], bench: &mut Bench) {
    if damages.contains(&Damage::Content) {
        bad_content(g, bench);
    }
    if damages.contains(&Damage::Length) {
        bad_length(g);
    }
    if damages.contains(&Damage::Field) {
        bad_field(g);
    }
}

// The page, and what damages it.
fn damage_page(g: &mut State, damages: &[Damage], page: &mut [u8; 260]) {
    make_page(g, page);
    if damages.contains(&Damage::Signature) {
        let at = g.below(4);
        flip(g, page, at);
        mend_crc(page);
    }
    if damages.contains(&Damage::Crc) {
        let at = add(4, g.below(252));
        flip(g, page, at);
    }
    if damages.contains(&Damage::PageLength) {
        bad_page_length(g);
    }
}

// A small part, drawn, and its first buffers.
fn small_part(g: &mut State, bench: &mut Bench) {
    let part = add(2, g.below(6));
    g.load_part(part);
    fill_buffers(g, &mut bench.buffers);
}

// A small part with these damages.
fn damaged_case(rt: HostRuntime, g: &mut State, damages: &[Damage], bench: &mut Bench) {
    small_part(g, bench);
    damage_part(g, damages, bench);
    damage_page(g, damages, &mut bench.buffers.page);
    power_case(rt, g, bench);
}

// The smallest part with one field at a limit or past it.
fn limit_case(rt: HostRuntime, g: &mut State, i: usize, many: bool, bench: &mut Bench) {
    g.load_part(7);
    g.part.many = many;
    set_limit(&mut g.part, i);
    g.measure();
    g.part.counts = Counts::Zero;
    fill_buffers(g, &mut bench.buffers);
    make_page(g, &mut bench.buffers.page);
    power_case(rt, g, bench);
}

// One byte of a good page changed, the CRC mended.
fn byte_case(rt: HostRuntime, g: &mut State, at: usize, bench: &mut Bench) {
    small_part(g, bench);
    let page = &mut bench.buffers.page;
    make_page(g, page);
    flip(g, page, at);
    if at < 254 {
        mend_crc(page);
    }
    power_case(rt, g, bench);
}

// The kinds of power-ons.
#[derive(Clone, Copy, PartialEq, Eq)]
pub enum PowerKind {
    // single damages or none
    Single,
    // pairs of damages
    Pairs,
    Limits,
    // single bytes of the page
    Bytes,
}

impl PowerKind {
    pub fn of(number: usize) -> PowerKind {
        match number {
            0 => PowerKind::Single,
            1 => PowerKind::Pairs,
            2 => PowerKind::Limits,
            _ => PowerKind::Bytes,
        }
    }

    // How many cases: 24 rounds of 7 and of 15, six of 58, one of 256.
    fn cases(self, count: usize) -> usize {
        match self {
            PowerKind::Single => times(count, 168),
            PowerKind::Pairs => times(count, 360),
            PowerKind::Limits => times(count, 348),
            PowerKind::Bytes => times(count, 256),
        }
    }
}

// Case number 'i' of a kind.
fn one_case(rt: HostRuntime, g: &mut State, kind: PowerKind, i: usize, bench: &mut Bench) {
    match kind {
        PowerKind::Single => match i % 7 {
            0 => damaged_case(rt, g, &[], bench),
            n => damaged_case(rt, g, &[Damage::ALL[n - 1]], bench),
        },
        PowerKind::Pairs => damaged_case(rt, g, &Damage::PAIRS[i % 15], bench),
        PowerKind::Limits => limit_case(rt, g, i % 58, i / 58 % 2 == 1, bench),
        PowerKind::Bytes => byte_case(rt, g, i % 256, bench),
    }
}

pub fn run_power_line(
    rt: HostRuntime,
    g: &mut State,
    count: usize,
    kind: PowerKind,
    bench: &mut Bench,
) {
    bench.buffers.page.fill(0);
    g.load_knobs(TraceKind::Short as usize);
    for i in 0..kind.cases(count) {
        one_case(rt, g, kind, i, bench);
    }
}
