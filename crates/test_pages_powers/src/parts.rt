// The parts of the cases, their pages and lengths, and what is done to them.
use page::crc::page_crc;

// The sizes of a part and what else its page says.
#[derive(Clone, Copy)]
pub struct Part {
    pub data: usize,
    pub spare: usize,
    pub pages: usize,
    pub blocks: usize,
    pub luns: usize,
    pub programs: u8,
    pub cycles: u8,
    pub features: usize,
    pub optional: usize,
    pub maker: u8,
    pub device: u8,
}

// How a length differs from what the part's sizes give.
#[derive(Clone, Copy)]
pub enum Change {
    Same,
    More,
    Less,
    Gone,
}

impl Change {
    fn of(self, n: usize) -> usize {
        match self {
            Change::Same => n,
            Change::More => n.saturating_add(1),
            Change::Less => n.saturating_sub(1),
            Change::Gone => 0,
        }
    }
}

// What is done to a case. A pair is a place and a byte.
#[derive(Clone, Copy)]
pub struct Harm {
    // page bytes lent
    pub length: usize,
    // the page's byte there is XORed with this before the CRC is put in, or after
    pub early: Option<(usize, u8)>,
    pub late: Option<(usize, u8)>,
    pub array: Change,
    pub registers: Change,
    pub counts: Change,
    pub flags: Change,
    // the count or flag there becomes this
    pub count: Option<(usize, u8)>,
    pub flag: Option<(usize, u8)>,
}

#[derive(Clone, Copy)]
pub struct Lengths {
    pub array: usize,
    pub registers: usize,
    pub counts: usize,
    pub flags: usize,
}

// The first `n` bytes, or all if there are not so many.
pub fn front(s: &[u8], n: usize) -> &[u8] {
    &s[..n.min(s.len())]
}

pub fn front_mut(s: &mut [u8], n: usize) -> &mut [u8] {
    let n = n.min(s.len());
    &mut s[..n]
}

// What lent memory holds before a power-on: 0, 1, .. k, 0, 1, .., or bytes of every value.
#[derive(Clone, Copy)]
pub enum Cells {
    Ramp(u8),
    Mixed(usize),
}

impl Cells {
    fn at(self, i: usize) -> u8 {
        match self {
            Cells::Ramp(k) => (i % (k as usize + 1)) as u8,
            Cells::Mixed(k) => ((i % 256 * 31 + i / 256 % 256 + k % 256) % 256) as u8,
        }
    }

    pub fn lay(self, dst: &mut [u8]) {
        for (i, b) in dst.iter_mut().enumerate() {
            *b = self.at(i);
        }
    }
}

fn flip(page: &mut [u8], change: Option<(usize, u8)>) {
    if let Some((at, x)) = change {
        if let Some(b) = page.get_mut(at) {
            *b ^= x;
        }
    }
}

pub fn put(dst: &mut [u8], change: Option<(usize, u8)>) {
    if let Some((at, v)) = change {
        if let Some(b) = dst.get_mut(at) {
            *b = v;
        }
    }
}

// The low bytes of a number, as many as there is room for.
fn put_low(room: &mut [u8], n: usize) {
    for (to, b) in room.iter_mut().zip(n.to_le_bytes()) {
        *to = b;
    }
}

fn put_part(page: &mut [u8; 300], p: Part) {
    page[0..4].copy_from_slice(b"ONFI");
    put_low(&mut page[6..8], p.features);
    put_low(&mut page[8..10], p.optional);
    page[64] = p.maker;
    put_low(&mut page[80..84], p.data);
    put_low(&mut page[84..86], p.spare);
    put_low(&mut page[92..96], p.pages);
    put_low(&mut page[96..100], p.blocks);
    put_low(&mut page[100..101], p.luns);
    page[101] = p.cycles;
    page[110] = p.programs;
}

// The page of a case.
pub fn make_page(page: &mut [u8; 300], p: Part, h: Harm) {
    Cells::Mixed(11).lay(page);
    put_part(page, p);
    flip(page, h.early);
    let crc = page_crc(page);
    page[254..256].copy_from_slice(&crc.to_le_bytes());
    flip(page, h.late);
}

// The lengths that sizes give.
pub fn lengths_of(size: usize, pages: usize, blocks: usize, luns: usize) -> Lengths {
    let flags = luns.saturating_mul(blocks);
    let counts = flags.saturating_mul(pages);
    Lengths {
        array: counts.saturating_mul(size),
        registers: luns.saturating_mul(size),
        counts,
        flags,
    }
}

pub fn wanted(p: Part, h: Harm) -> Lengths {
    let size = p.data.saturating_add(p.spare);
    let l = lengths_of(size, p.pages, p.blocks, p.luns);
    Lengths {
        array: h.array.of(l.array),
        registers: h.registers.of(l.registers),
        counts: h.counts.of(l.counts),
        flags: h.flags.of(l.flags),
    }
}
