// The parts, as judge/generate.c has them.
use crate::parts::Counts::{self, Drawn, Full, Zero};
use crate::parts::Fill::{self, Erased, Noise};
use crate::parts::Flags::{self, Good, Quarter, TwoThirds};

// data, spare, pages, blocks, LUNs, programs, options, fill, counts, flags
#[derive(Clone, Copy)]
pub struct PartRow(
    pub usize,
    pub usize,
    pub usize,
    pub usize,
    pub usize,
    pub usize,
    pub usize,
    pub Fill,
    pub Counts,
    pub Flags,
);

const PARTS: [PartRow; 22] = [
    PartRow(512, 16, 4, 8, 2, 4, 31, Noise, Zero, Good),
    PartRow(512, 16, 3, 5, 2, 4, 63, Erased, Zero, Good),
    PartRow(64, 8, 5, 3, 1, 3, 31, Noise, Drawn, Quarter),
    PartRow(32, 4, 3, 5, 4, 2, 63, Noise, Drawn, Quarter),
    PartRow(40, 0, 1, 7, 3, 4, 63, Noise, Zero, Quarter),
    PartRow(24, 1, 6, 1, 2, 8, 31, Erased, Drawn, Good),
    PartRow(16, 0, 1, 1, 4, 1, 31, Noise, Zero, Good),
    PartRow(16, 0, 1, 1, 1, 8, 31, Noise, Full, Good),
    PartRow(2048, 64, 4, 6, 2, 4, 63, Noise, Drawn, Quarter),
    PartRow(128, 3, 4, 4, 2, 4, 62, Noise, Zero, Good),
    PartRow(100, 11, 3, 4, 2, 4, 29, Erased, Drawn, Quarter),
    PartRow(64, 16, 6, 5, 3, 3, 27, Noise, Zero, Quarter),
    PartRow(96, 4, 5, 3, 2, 2, 55, Noise, Drawn, Good),
    PartRow(48, 5, 3, 3, 3, 4, 0, Noise, Zero, Quarter),
    PartRow(33, 2, 2, 9, 2, 1, 31, Noise, Zero, TwoThirds),
    PartRow(20, 4, 7, 3, 4, 8, 63, Noise, Full, Good),
    PartRow(16, 0, 256, 2, 2, 4, 31, Noise, Drawn, Quarter),
    PartRow(16, 0, 1, 4096, 2, 2, 63, Noise, Drawn, Quarter),
    PartRow(250, 7, 5, 6, 3, 4, 63, Erased, Zero, Quarter),
    PartRow(16384, 2048, 1, 2, 2, 4, 31, Noise, Zero, Good),
    PartRow(255, 1, 4, 4, 4, 4, 63, Noise, Drawn, Quarter),
    PartRow(60, 3, 4, 3, 2, 4, 15, Noise, Drawn, Quarter),
];

pub fn part_row(part: usize) -> PartRow {
    if part < 22 { PARTS[part] } else { PARTS[0] }
}
