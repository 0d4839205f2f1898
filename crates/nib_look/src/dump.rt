// `nib dump`: a page of the array.
use crate::walk::{Place, first_place, sought};
use nib_files::part::{Buffers, NO_SIZES, geometry_in};
use nib_print::pen::{Pen, To, Told};
use nib_text::reading::{grown, no_word};
use slices::{byte_at, part_of};
use target::Geometry;
use target::sizes::page_size;

fn no_number(rt: HostRuntime, name: &[u8], s: &[u8]) -> Told {
    let mut pen = Pen::new(rt, To::Errors);
    pen.text(b"nib: ");
    pen.text(name);
    pen.text(b" is a number, and '");
    pen.shown(s);
    pen.text(b"' is none\n");
    pen.flush();
    Told
}

fn not_there(rt: HostRuntime, name: &[u8], s: &[u8], many: usize) -> Told {
    let mut pen = Pen::new(rt, To::Errors);
    pen.text(b"nib: ");
    pen.text(name);
    pen.with_number(b" is 0 to ", many.saturating_sub(1));
    pen.text(b", and ");
    pen.shown(s);
    pen.text(b" was given\n");
    pen.flush();
    Told
}

// A decimal number, the LUN, block or page that was given.
fn number_given(rt: HostRuntime, name: &[u8], s: &[u8]) -> Result<usize, Told> {
    let mut word = no_word();
    for &b in s {
        word = grown(word, b);
    }
    if 0 < word.length && word.numbered {
        Ok(word.number)
    } else {
        Err(no_number(rt, name, s))
    }
}

// Whether it is below `many`; where it is not, a line says what is.
fn there(rt: HostRuntime, name: &[u8], s: &[u8], n: usize, many: usize) -> Result<(), Told> {
    if n < many {
        Ok(())
    } else {
        Err(not_there(rt, name, s, many))
    }
}

// The page's place, which the part has, a step at a time by `sought`, whose promise is of one step: no part that nib holds has more
// pages than 262,144. LUN, block and page stand one by one, as its clause takes them.
fn place_of(g: Geometry, lun: usize, block: usize, page: usize) -> Place {
    let mut p = first_place();
    for _ in 0..262144 {
        p = sought(g, p, lun, block, page);
    }
    p
}

// 'LUN 1, block 5, page 3: '
pub fn place_words(pen: &mut Pen, at: Place) {
    pen.with_number(b"LUN ", at.lun);
    pen.with_number(b", block ", at.block);
    pen.with_number(b", page ", at.page);
    pen.text(b": ");
}

fn head(pen: &mut Pen, at: Place, count: u8, flag: u8) {
    place_words(pen, at);
    pen.with_number(b"programmed ", count as usize);
    pen.text(b" times");
    if flag != 0 {
        pen.text(b"; a factory bad block");
    }
    pen.end_line();
}

// The place of its first byte, its bytes, a blank before each, and what of them a terminal can show.
fn row_line(pen: &mut Pen, at: usize, row: &[u8]) {
    pen.hex((at / 256 % 256) as u8);
    pen.hex((at % 256) as u8);
    pen.put(b' ');
    for &b in row {
        pen.put(b' ');
        pen.hex(b);
    }
    pen.pad(54);
    pen.shown(row);
    pen.end_line();
}

// Rows of 16 bytes. A star stands for rows that repeat the one before them; the page's last row is always written.
fn rows(pen: &mut Pen, held: &[u8]) {
    let mut before: &[u8] = b"";
    let mut starred = false;
    for (r, row) in held.chunks(16).enumerate() {
        let at = r * 16;
        let repeats = row == before && at + 16 < held.len();
        if !repeats {
            row_line(pen, at, row);
        } else if !starred {
            pen.text(b"*\n");
        }
        before = row;
        starred = repeats;
    }
}

fn show_page(rt: HostRuntime, at: Place, held: &[u8], count: u8, flag: u8) {
    let mut pen = Pen::new(rt, To::Output);
    head(&mut pen, at, count, flag);
    rows(&mut pen, held);
    pen.flush();
}

// The page's place, where the part has it.
fn place_given(
    rt: HostRuntime,
    g: Geometry,
    lun: &[u8],
    block: &[u8],
    page: &[u8],
) -> Result<Place, Told> {
    let l = number_given(rt, b"LUN", lun)?;
    let b = number_given(rt, b"block", block)?;
    let p = number_given(rt, b"page", page)?;
    there(rt, b"LUN", lun, l, g.luns)?;
    there(rt, b"block", block, b, g.blocks)?;
    there(rt, b"page", page, p, g.pages)?;
    Ok(place_of(g, l, b, p))
}

// `nib dump DIR LUN BLOCK PAGE`.
#[inline(never)]
pub fn dump(
    rt: HostRuntime,
    dir: &[u8],
    lun: &[u8],
    block: &[u8],
    page: &[u8],
    part: &mut Buffers<'_>,
) -> Result<(), Told> {
    part.load(rt, dir)?;
    // a page that can't be read a second time is told of, and then no place is there
    let g = geometry_in(rt, dir).unwrap_or(NO_SIZES);
    let at = place_given(rt, g, lun, block, page)?;
    show_page(
        rt,
        at,
        part_of(&*part.array, at.start, page_size(g)),
        byte_at(&part.counts, at.count),
        byte_at(&part.flags, at.flag),
    );
    Ok(())
}
