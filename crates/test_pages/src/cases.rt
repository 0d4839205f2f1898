// The parts and the cases, by number.
use test_kit::random::{SEED, drawn};
use test_pages_powers::parts::{Change, Harm, Part};
use test_pages_powers::powers::{large, run};

const T1: Part = Part {
    data: 512,
    spare: 16,
    pages: 4,
    blocks: 8,
    luns: 2,
    programs: 4,
    cycles: 0x23,
    features: 0x0102,
    optional: 0x004c,
    maker: 0x2c,
    device: 0x68,
};

const T2: Part = Part {
    pages: 3,
    blocks: 5,
    ..T1
};

// The part that is moved to a limit.
const SLIM: Part = Part {
    data: 64,
    spare: 4,
    pages: 2,
    blocks: 3,
    luns: 1,
    programs: 2,
    cycles: 0x23,
    features: 0x0002,
    optional: 0x0048,
    maker: 0x98,
    device: 0xd3,
};

// Pages of 16 bytes, one a block, for many blocks.
const THIN: Part = Part {
    data: 16,
    spare: 0,
    pages: 1,
    ..SLIM
};

// Pages by the largest sizes.
const WIDE: Part = Part {
    data: 16384,
    spare: 2048,
    programs: 8,
    ..SLIM
};

// 4 GiB exactly.
const GIBS: Part = Part {
    data: 16384,
    spare: 0,
    pages: 256,
    blocks: 1024,
    ..SLIM
};

const WELL: Harm = Harm {
    length: 256,
    early: None,
    late: None,
    array: Change::Same,
    registers: Change::Same,
    counts: Change::Same,
    flags: Change::Same,
    count: None,
    flag: None,
};

// A part with this changed.
fn changed<F: FnOnce(&mut Part)>(rt: HostRuntime, n: usize, part: Part, change: F)
    requires { F.IsAlwaysCallable change }
{
    let mut p = part;
    change(&mut p);
    run(rt, n, p, WELL);
}

// A part to which this is done.
fn harmed<F: FnOnce(&mut Harm)>(rt: HostRuntime, n: usize, part: Part, change: F)
    requires { F.IsAlwaysCallable change }
{
    let mut h = WELL;
    change(&mut h);
    run(rt, n, part, h);
}

pub fn accepted(rt: HostRuntime) {
    run(rt, 1, T1, WELL);
    run(rt, 2, T2, WELL);
    run(rt, 3, SLIM, WELL);
    changed(rt, 4, T1, |p| p.optional = 0);
    changed(rt, 5, T1, |p| p.optional = 0x0004);
    changed(rt, 6, T1, |p| p.optional = 0x0008);
    changed(rt, 7, T1, |p| p.optional = 0x0040);
    changed(rt, 8, T1, |p| p.optional = 0xffff);
    changed(rt, 9, T1, |p| p.optional = 0xffb3);
    changed(rt, 10, T1, |p| p.features = 0x0002);
    changed(rt, 11, T1, |p| p.features = 0xfffe);
    changed(rt, 12, T1, |p| p.features = 0xfefe);
    for (n, maker, device) in [(13, 0, 0), (14, 255, 1), (15, 1, 255)] {
        let part = Part { maker, ..T1 };
        run(rt, n, Part { device, ..part }, WELL);
    }
}

pub fn lowest(rt: HostRuntime) {
    changed(rt, 100, SLIM, |p| p.data = 16);
    changed(rt, 101, SLIM, |p| p.spare = 0);
    changed(rt, 102, SLIM, |p| p.pages = 1);
    changed(rt, 103, SLIM, |p| p.blocks = 1);
    changed(rt, 104, SLIM, |p| p.luns = 1);
    changed(rt, 105, SLIM, |p| p.programs = 1);
    let thin = Part { blocks: 1, ..THIN };
    changed(rt, 106, thin, |p| p.programs = 1);
}

pub fn highest(rt: HostRuntime) {
    changed(rt, 110, SLIM, |p| p.data = 16384);
    changed(rt, 111, SLIM, |p| p.spare = 2048);
    changed(rt, 112, SLIM, |p| p.pages = 256);
    changed(rt, 113, THIN, |p| p.blocks = 4096);
    changed(rt, 114, SLIM, |p| p.luns = 4);
    changed(rt, 115, SLIM, |p| p.programs = 8);
    let wide = Part { blocks: 2, ..WIDE };
    changed(rt, 116, wide, |p| p.luns = 4);
}

pub fn outside(rt: HostRuntime) {
    changed(rt, 120, SLIM, |p| p.data = 15);
    changed(rt, 121, SLIM, |p| p.data = 16385);
    changed(rt, 122, SLIM, |p| p.spare = 2049);
    changed(rt, 123, SLIM, |p| p.pages = 0);
    changed(rt, 124, SLIM, |p| p.pages = 257);
    changed(rt, 125, SLIM, |p| p.blocks = 0);
    changed(rt, 126, THIN, |p| p.blocks = 4097);
    changed(rt, 127, SLIM, |p| p.luns = 0);
    changed(rt, 128, SLIM, |p| p.luns = 5);
    changed(rt, 129, SLIM, |p| p.programs = 0);
    changed(rt, 130, SLIM, |p| p.programs = 9);
    changed(rt, 131, SLIM, |p| p.data = 0);
}

// Feature bits 0 and 1 against the number of LUNs, and byte 101.
pub fn bits(rt: HostRuntime) {
    let cases = [
        (140, 0, 1),
        (141, 1, 1),
        (142, 3, 1),
        (143, 0, 2),
        (144, 0, 4),
        (145, 2, 2),
        (146, 0xfffd, 2),
        (147, 0xfffc, 1),
    ];
    for (n, features, luns) in cases {
        let part = Part { luns, ..SLIM };
        run(rt, n, Part { features, ..part }, WELL);
    }
    for (k, cycles) in [0, 0x22, 0x24, 0x13, 0x33, 0x32, 0xa3, 0x2b]
        .into_iter()
        .enumerate()
    {
        run(rt, 150 + k, Part { cycles, ..SLIM }, WELL);
    }
}

// One high bit in each byte of each size, with the buffers of the part without it; then sizes within the limits that are
// not those of the buffers.
pub fn high_bits(rt: HostRuntime) {
    let cases = [
        (160, 81, 0x80),
        (161, 82, 1),
        (162, 83, 0x80),
        (163, 85, 0x80),
        (164, 93, 2),
        (165, 94, 1),
        (166, 95, 0x80),
        (167, 97, 0x20),
        (168, 98, 1),
        (169, 99, 0x80),
        (170, 100, 0x80),
        (171, 110, 0x80),
        (172, 80, 1),
        (173, 84, 1),
        (174, 92, 1),
        (175, 96, 1),
        (176, 100, 3),
        (177, 110, 1),
    ];
    for (n, at, x) in cases {
        let early = Some((at, x));
        run(rt, n, SLIM, Harm { early, ..WELL });
    }
}

// Every set of the six refusals at once, a bit of the number for each: T1, and T2 with another fault for each.
pub fn sets_of_t1(rt: HostRuntime) {
    for m in 0..64 {
        let part = Part {
            cycles: if m & 8 != 0 { 0x24 } else { 0x23 },
            ..T1
        };
        let harm = Harm {
            length: if m & 1 != 0 { 255 } else { 256 },
            early: if m & 2 != 0 { Some((0, 1)) } else { None },
            late: if m & 4 != 0 { Some((254, 1)) } else { None },
            array: if m & 16 != 0 {
                Change::More
            } else {
                Change::Same
            },
            count: if m & 32 != 0 { Some((0, 5)) } else { None },
            ..WELL
        };
        run(rt, 200 + m, part, harm);
    }
}

pub fn sets_of_t2(rt: HostRuntime) {
    for m in 0..64 {
        let part = Part {
            features: if m & 8 != 0 { 0x0100 } else { 0x0102 },
            ..T2
        };
        let harm = Harm {
            length: if m & 1 != 0 { 257 } else { 256 },
            early: if m & 2 != 0 { Some((3, 0x80)) } else { None },
            late: if m & 4 != 0 { Some((100, 0x40)) } else { None },
            registers: if m & 16 != 0 {
                Change::Less
            } else {
                Change::Same
            },
            flag: if m & 32 != 0 { Some((9, 2)) } else { None },
            ..WELL
        };
        run(rt, 300 + m, part, harm);
    }
}

pub fn single(rt: HostRuntime) {
    for (k, length) in [0, 1, 253, 254, 255, 257, 300].into_iter().enumerate() {
        run(rt, 400 + k, T1, Harm { length, ..WELL });
    }
    for k in 0..4 {
        let early = Some((k, 0x20));
        run(rt, 410 + k, T1, Harm { early, ..WELL });
    }
    harmed(rt, 414, T1, |h| h.late = Some((254, 0x80)));
    harmed(rt, 415, T1, |h| h.late = Some((255, 1)));
    harmed(rt, 416, T1, |h| h.late = Some((4, 1)));
    harmed(rt, 417, T1, |h| h.late = Some((253, 0x80)));
}

// Each length one more, one less, and none at all; then counts and flags at their limits.
pub fn contents(rt: HostRuntime) {
    let changes = [Change::More, Change::Less, Change::Gone];
    for (k, change) in changes.into_iter().enumerate() {
        harmed(rt, 420 + k, T1, |h| h.array = change);
        harmed(rt, 424 + k, T1, |h| h.registers = change);
        harmed(rt, 428 + k, T1, |h| h.counts = change);
        harmed(rt, 432 + k, T1, |h| h.flags = change);
    }
    harmed(rt, 440, T1, |h| h.count = Some((0, 4)));
    harmed(rt, 441, T1, |h| h.count = Some((0, 5)));
    harmed(rt, 442, T1, |h| h.count = Some((63, 4)));
    harmed(rt, 443, T1, |h| h.count = Some((63, 5)));
    harmed(rt, 444, T1, |h| h.count = Some((31, 255)));
    harmed(rt, 445, T1, |h| h.count = Some((64, 255)));
    harmed(rt, 450, T1, |h| h.flag = Some((0, 1)));
    harmed(rt, 451, T1, |h| h.flag = Some((0, 2)));
    harmed(rt, 452, T1, |h| h.flag = Some((15, 0)));
    harmed(rt, 453, T1, |h| h.flag = Some((15, 2)));
    harmed(rt, 454, T1, |h| h.flag = Some((7, 255)));
    harmed(rt, 455, T1, |h| h.flag = Some((16, 255)));
}

// T1 with one byte of the page changed: after the CRC was put in, and before.
pub fn late_bytes(rt: HostRuntime) {
    for k in 0..256 {
        let late = Some((k, 1u8 << (k % 8)));
        run(rt, 1000 + k, T1, Harm { late, ..WELL });
    }
}

pub fn early_bytes(rt: HostRuntime) {
    for k in 0..254 {
        let early = Some((k, (1 + k * 37 % 255) as u8));
        run(rt, 2000 + k, T1, Harm { early, ..WELL });
    }
}

const DATA: [usize; 8] = [16, 17, 20, 32, 64, 100, 128, 15];

const LUNS: [usize; 16] = [1, 2, 3, 4, 1, 2, 3, 4, 1, 2, 3, 4, 1, 2, 5, 0];

const FEATURES: [usize; 8] = [
    0x0102, 0x0002, 0x015a, 0xfffe, 0x0102, 0x0006, 0x0100, 0x0103,
];

const CHANGES: [Change; 4] = [Change::Same, Change::More, Change::Less, Change::Gone];

// Parts and harms by the digits of a drawn number.
fn drawn_part(x: usize, device: u8) -> Part {
    Part {
        data: DATA[x % 8],
        spare: 5 * (x / 8 % 4),
        pages: 1 + x / 32 % 5,
        blocks: 1 + x / 160 % 6,
        luns: LUNS[x / 960 % 16],
        programs: (1 + x / 15360 % 8) as u8,
        cycles: if x / 64424509440 % 16 == 15 {
            0x22
        } else {
            0x23
        },
        features: FEATURES[x / 122880 % 8],
        optional: x / 983040 % 65536,
        maker: (x / 1030792151040 % 256) as u8,
        device,
    }
}

fn drawn_harm(x: usize) -> Harm {
    let bits = (x / 16256 % 255 + 1) as u8;
    let place = x / 33162240 % 256;
    let change = CHANGES[x / 8489533440 % 4];
    let k = x / 8693282242560 % 16;
    let count = (x / 271665070080 % 16) as u8;
    let flag = (x / 4346641121280 % 2) as u8 + (k == 0) as u8;
    let harm = Harm {
        length: if x % 16 == 0 { 255 } else { 256 },
        early: if x / 16 % 4 == 0 {
            Some((x / 64 % 254, bits))
        } else {
            None
        },
        late: if x / 4145280 % 8 == 0 {
            Some((place, bits))
        } else {
            None
        },
        count: if k < 8 {
            Some((place % 16, count))
        } else {
            None
        },
        flag: if k < 4 { Some((place % 8, flag)) } else { None },
        ..WELL
    };
    match x / 33958133760 % 8 {
        0 => Harm {
            array: change,
            ..harm
        },
        1 => Harm {
            registers: change,
            ..harm
        },
        2 => Harm {
            counts: change,
            ..harm
        },
        3 => Harm {
            flags: change,
            ..harm
        },
        _ => harm,
    }
}

pub fn drawn_cases(rt: HostRuntime) {
    let mut x = SEED;
    for n in 0..=255u8 {
        let y = drawn(x);
        x = drawn(y);
        run(rt, 3000 + n as usize, drawn_part(y, n), drawn_harm(x));
    }
}

fn sized(part: Part, pages: usize, blocks: usize, luns: usize) -> Part {
    Part {
        pages,
        blocks,
        luns,
        ..part
    }
}

pub fn larges(rt: HostRuntime) {
    // pages by the largest sizes, where the counts still fit
    let sizes = [
        (1, 256, 1, 4),
        (2, 1, 4096, 4),
        (3, 256, 1024, 4),
        (4, 64, 4096, 4),
        (5, 256, 4096, 1),
    ];
    for (n, pages, blocks, luns) in sizes {
        large(rt, n, sized(WIDE, pages, blocks, luns), WELL);
    }
    for (k, array) in CHANGES.into_iter().enumerate() {
        large(rt, 6 + k, GIBS, Harm { array, ..WELL });
    }
    let count = Some((262143, 3));
    large(rt, 10, GIBS, Harm { count, ..WELL });
    let wider = Part {
        data: 16385,
        ..SLIM
    };
    large(rt, 11, sized(wider, 256, 1024, 1), WELL);
    large(rt, 12, sized(SLIM, 257, 1024, 1), WELL);
    large(rt, 13, sized(SLIM, 128, 4097, 1), WELL);
    large(rt, 14, sized(SLIM, 16, 4096, 5), WELL);
}
