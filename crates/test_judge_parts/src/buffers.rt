// The buffers that the model is lent, and how much of each.
use test_kit::numbers::{at_most, times};

#[derive(Drop)]
pub struct Buffers {
    // the parameter page, with room for more than it has
    pub page: [u8; 260],
    pub array: [u8; 131072],
    pub registers: [u8; 36864],
    pub counts: [u8; 8192],
    pub flags: [u8; 8192],
}

impl Buffers {
    pub fn new() -> Buffers {
        Buffers {
            page: [0; 260],
            array: [0; 131072],
            registers: [0; 36864],
            counts: [0; 8192],
            flags: [0; 8192],
        }
    }
}

#[derive(Clone, Copy)]
pub struct Lengths {
    pub page: usize,
    pub array: usize,
    pub registers: usize,
    pub counts: usize,
    pub flags: usize,
}

impl Lengths {
    // What so many LUNs of so many blocks of so many pages of this size ask; never past the memory there is.
    pub fn of(luns: usize, blocks: usize, pages: usize, size: usize) -> Lengths {
        let blocks = times(luns, blocks);
        let pages = times(blocks, pages);
        Lengths {
            page: 256,
            array: at_most(times(pages, size), 131072),
            registers: at_most(times(luns, size), 36864),
            counts: at_most(pages, 8192),
            flags: at_most(blocks, 8192),
        }
    }
}
