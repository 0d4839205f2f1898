// `nib diff`: where two part folders differ. Both are read whole, one after the other; the array of the first is then read a second
// time, page by page, since there is room for one array alone.
use crate::dump::place_words;
use crate::walk::{Place, first_place, next_place, same_sizes};
use nib_files::files::{join, open, read_full};
use nib_files::part::{Buffers, Counts, Flags, NO_SIZES, Page, geometry_in};
use nib_print::pen::{Pen, To, Told, complain, failed, front_mut};
use slices::{byte_at, part_of};
use std::fs::File;
use std::io::Write;
use target::Geometry;
use target::sizes::page_size;

// Room for the longest page.
pub type Buffer = [u8; 18432];

// The first folder's part, while the buffers hold the second's: all but its array, which is read once more.
#[derive(Drop)]
struct First {
    page: Page,
    device: u8,
    // how many pages its array has
    pages: usize,
    counts: Counts,
    flags: Flags,
}

// What was found so far.
#[derive(Clone, Copy)]
pub struct Found {
    pub pen: Pen,
    pub differs: bool,
}

// How many bytes of two slices differ, and the first place where they do.
#[derive(Clone, Copy)]
struct Difference {
    many: usize,
    first: usize,
}

fn difference_of(a: &[u8], b: &[u8]) -> Option<Difference> {
    let first = a.iter().zip(b).position(|(x, y)| x != y)?;
    let many = a.iter().zip(b).filter(|(x, y)| x != y).count();
    Some(Difference { many, first })
}

impl Found {
    fn two_bytes(&mut self, a: u8, b: u8) {
        self.pen.text(b": ");
        self.pen.byte(a);
        self.pen.text(b" and ");
        self.pen.byte(b);
        self.pen.end_line();
        self.differs = true;
    }

    // Two numbers after words, as 'flag 0 and 1'.
    fn two_numbers(&mut self, words: &[u8], a: u8, between: &[u8], b: u8) {
        self.pen.with_number(words, a as usize);
        self.pen.with_number(between, b as usize);
        self.pen.end_line();
        self.differs = true;
    }

    fn bytes(&mut self, d: Difference, words: &[u8], a: &[u8], b: &[u8]) {
        self.pen.number(d.many);
        self.pen.with_number(words, d.first);
        self.two_bytes(byte_at(a, d.first), byte_at(b, d.first));
    }

    fn pages(&mut self, a: &Page, b: &Page) {
        if let Some(d) = difference_of(a, b) {
            self.pen.text(b"page: ");
            self.bytes(d, b" bytes differ, the first is byte ", a, b);
        }
    }

    fn ids(&mut self, a: u8, b: u8) {
        if a != b {
            self.pen.text(b"id");
            self.two_bytes(a, b);
        }
    }

    // The flags of the block, at its first page.
    fn flags(&mut self, at: Place, a: u8, b: u8) {
        if a != b && at.page == 0 {
            self.pen.with_number(b"LUN ", at.lun);
            self.pen.with_number(b", block ", at.block);
            self.two_numbers(b": flag ", a, b" and ", b);
        }
    }

    fn counts(&mut self, at: Place, a: u8, b: u8) {
        if a != b {
            place_words(&mut self.pen, at);
            self.two_numbers(b"programmed ", a, b" times and ", b);
        }
    }

    fn arrays(&mut self, at: Place, a: &[u8], b: &[u8]) {
        if let Some(d) = difference_of(a, b) {
            place_words(&mut self.pen, at);
            self.bytes(d, b" bytes differ, the first at column ", a, b);
        }
    }

    // The next page of the first folder's array, of `n` bytes, beside the second's. It may not be there any more.
    fn next_page(
        &mut self,
        rt: HostRuntime,
        input: &mut File,
        path: &[u8],
        at: Place,
        n: usize,
        held: &mut Buffer,
        other: &[u8],
    ) -> Result<(), Told> {
        let page = front_mut(held, n);
        if read_full(input, page) < page.len() {
            self.pen.flush();
            return Err(complain(rt, path, b": is shorter than it was\n"));
        }
        self.arrays(at, page, part_of(other, at.start, n));
        Ok(())
    }

    // Every page, block by block.
    fn places(
        &mut self,
        rt: HostRuntime,
        dir: &[u8],
        g: Geometry,
        one: &First,
        two: &Buffers<'_>,
    ) -> Result<(), Told> {
        let joined = join(dir, b"array");
        let path = joined.as_slice();
        let mut input = open(rt, path).map_err(|e| failed(rt, path, &e))?;
        let mut held = [0u8; 18432];
        let n = page_size(g);
        let mut at = first_place();
        for _ in 0..one.pages {
            self.flags(
                at,
                byte_at(&one.flags, at.flag),
                byte_at(&two.flags, at.flag),
            );
            let read = self.next_page(rt, &mut input, path, at, n, &mut held, &*two.array);
            self.counts(
                at,
                byte_at(&one.counts, at.count),
                byte_at(&two.counts, at.count),
            );
            read?;
            at = next_place(g, at);
        }
        Ok(())
    }
}

// `nib diff DIR DIR`.
#[inline(never)]
pub fn diff(rt: HostRuntime, dir: &[u8], other: &[u8], part: &mut Buffers<'_>) -> Result<(), Told> {
    part.load(rt, dir)?;
    let one = First {
        page: part.page,
        device: part.device,
        pages: part.lengths.counts,
        counts: part.counts,
        flags: part.flags,
    };
    // nothing of the first is left beyond the second's lengths, where its page may be another by the time that it is read again
    part.counts.fill(0);
    part.flags.fill(0);
    part.load(rt, other)?;
    // a page that can't be read a second time is told of, and then has the sizes of no part
    let g = geometry_in(rt, dir).unwrap_or(NO_SIZES);
    let h = geometry_in(rt, other).unwrap_or(NO_SIZES);
    let mut found = Found {
        pen: Pen::new(rt, To::Output),
        differs: false,
    };
    found.pages(&one.page, &part.page);
    found.ids(one.device, part.device);
    let compared = if same_sizes(g, h) {
        found.places(rt, dir, g, &one, part)
    } else {
        found.pen.text(b"array, counts and flags are of other lengths, and are not compared\n");
        found.differs = true;
        Ok(())
    };
    found.pen.flush();
    compared?;
    // the last line of a diff that found something: tools/nib gives the exit status 3 for it
    if found.differs && found.pen.is_good() {
        let _ = rt.stderr().write_all(b"nib: the parts differ\n");
    }
    Ok(())
}
