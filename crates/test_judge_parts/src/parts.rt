// Parts: their fields, parameter pages and first buffers.
use crate::buffers::{Buffers, Lengths};
use crate::state::State;
use crate::tables::{PartRow, part_row};
use test_kit::numbers::{add, bits_for, byte, count, power, set, times};

// What the array holds at first.
#[derive(Clone, Copy, PartialEq, Eq)]
pub enum Fill {
    Erased,
    Noise,
}

// The counts at first.
#[derive(Clone, Copy, PartialEq, Eq)]
pub enum Counts {
    Zero,
    Drawn,
    Full,
}

// How many blocks are bad at first.
#[derive(Clone, Copy, PartialEq, Eq)]
pub enum Flags {
    Good,
    Quarter,
    TwoThirds,
}

#[derive(Clone, Copy)]
pub struct Part {
    pub data: usize,
    pub spare: usize,
    pub pages: usize,
    pub blocks: usize,
    pub luns: usize,
    pub programs: usize,
    // 1: 78h, 2: 06h, 4: EEh and EFh, 8: 40h, 16: copyback, 32: any order
    pub options: usize,
    pub fill: Fill,
    pub counts: Counts,
    pub flags: Flags,
    // byte 101
    pub cycles: usize,
    // feature bits 0 and 1
    pub wide: bool,
    pub many: bool,
}

impl Part {
    // A part of the table.
    pub fn of(part: usize) -> Part {
        let PartRow(data, spare, pages, blocks, luns, programs, options, fill, counts, flags) =
            part_row(part);
        Part {
            data,
            spare,
            pages,
            blocks,
            luns,
            programs,
            options,
            fill,
            counts,
            flags,
            cycles: 35,
            wide: false,
            many: luns != 1,
        }
    }

    // The page size P.
    pub fn size(&self) -> usize {
        add(self.data, self.spare)
    }

    pub fn page_bits(&self) -> usize {
        bits_for(self.pages)
    }

    pub fn block_bits(&self) -> usize {
        bits_for(self.blocks)
    }

    pub fn lengths(&self) -> Lengths {
        Lengths::of(self.luns, self.blocks, self.pages, self.size())
    }

    pub fn row_of(&self, lun: usize, block: usize, page: usize) -> usize {
        let low = add(page, times(block, power(self.page_bits())));
        let bits = add(self.page_bits(), self.block_bits());
        add(low, times(lun, power(bits))) % 16777216
    }

    // Whether it has an option, as a bit.
    fn option(&self, which: usize) -> usize {
        usize::from(self.options & which != 0)
    }
}

// The low bytes of a number, as many as there is room for.
fn put(room: &mut [u8], n: usize) {
    for (to, b) in room.iter_mut().zip(n.to_le_bytes()) {
        *to = b;
    }
}

fn crc_bit(c: u16) -> u16 {
    let d = c << 1;
    if c >> 15 == 1 { d ^ 0x8005 } else { d }
}

fn crc(bytes: &[u8]) -> u16 {
    let mut c = 0x4f4e;
    for b in bytes {
        c ^= u16::from(*b) << 8;
        for _ in 0..8 {
            c = crc_bit(c);
        }
    }
    c
}

// Of a page that is shorter the bytes that it lacks count as 0, and none is written past its end.
pub fn mend_crc(page: &mut [u8]) {
    let mut looked = [0u8; 254];
    for (to, &b) in looked.iter_mut().zip(page.iter()) {
        *to = b;
    }
    let [low, high] = crc(&looked).to_le_bytes();
    set(page, 254, usize::from(low));
    set(page, 255, usize::from(high));
}

// Bits that the model does not look at are random, like all other bytes.
fn feature_bits(g: &mut State) -> usize {
    let low = g.below(32);
    let high = g.below(128);
    let part = &g.part;
    usize::from(part.wide)
        | usize::from(part.many) << 1
        | part.option(32) << 2
        | low << 3
        | part.option(8) << 8
        | high << 9
}

fn optional_bits(g: &mut State) -> usize {
    let low = g.below(4);
    let middle = g.below(2);
    let high = g.below(512);
    let part = &g.part;
    low | part.option(4) << 2
        | part.option(1) << 3
        | part.option(16) << 4
        | middle << 5
        | part.option(2) << 6
        | high << 7
}

fn put_fields(part: &Part, page: &mut [u8; 260]) {
    put(&mut page[80..84], part.data);
    put(&mut page[84..86], part.spare);
    put(&mut page[92..96], part.pages);
    put(&mut page[96..100], part.blocks);
    page[100] = byte(part.luns);
    page[101] = byte(part.cycles);
    page[110] = byte(part.programs);
}

pub fn make_page(g: &mut State, page: &mut [u8; 260]) {
    g.fill_random(page);
    page[..4].copy_from_slice(b"ONFI");
    put(&mut page[6..8], feature_bits(g));
    put(&mut page[8..10], optional_bits(g));
    put_fields(&g.part, page);
    mend_crc(page);
    g.device = g.any_byte();
}

fn first_count(g: &mut State) -> u8 {
    let programs = g.part.programs;
    byte(match g.part.counts {
        Counts::Zero => 0,
        Counts::Drawn => g.below(add(programs, 1)),
        Counts::Full => programs,
    })
}

fn first_flag(g: &mut State) -> u8 {
    u8::from(match g.part.flags {
        Flags::Good => false,
        Flags::Quarter => g.chance(4),
        Flags::TwoThirds => g.below(3) != 0,
    })
}

pub fn fill_buffers(g: &mut State, b: &mut Buffers) {
    let n = count(g.lengths.array, &b.array);
    if g.part.fill == Fill::Noise {
        g.fill_random(&mut b.array[..n]);
    } else {
        b.array[..n].fill(0xff);
    }
    let n = count(g.lengths.registers, &b.registers);
    g.fill_random(&mut b.registers[..n]);
    let n = count(g.lengths.counts, &b.counts);
    for c in &mut b.counts[..n] {
        *c = first_count(g);
    }
    let n = count(g.lengths.flags, &b.flags);
    for f in &mut b.flags[..n] {
        *f = first_flag(g);
    }
}
