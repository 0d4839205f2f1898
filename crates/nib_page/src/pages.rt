// What a parameter page says, and how many blocks of a part folder are blank.
use nib_files::files::{join, open};
use nib_files::part::{Buffers, Page, page_in, refuse};
use nib_print::pen::{Pen, To, Told};
use nib_sizes::{Lengths, Unplanned, plan_of};
use page::crc::page_crc;
use page::fields::{
    address_cycles, bit_of, blocks_a_lun, data_bytes, features, lun_count, maker_id,
    optional_commands, pages_a_block, programs_a_page, spare_bytes, stored_crc,
};
use slices::part_of;
use target::Target;
use target::records::blank_at;

// A number, and its limits where it is outside them.
fn within(pen: &mut Pen, words: &[u8], n: usize, low: usize, high: usize) {
    pen.label(words);
    pen.number(n);
    if !(low..=high).contains(&n) {
        pen.with_number(b"  outside its limits, ", low);
        pen.with_number(b" to ", high);
    }
    pen.end_line();
}

fn lettered(pen: &mut Pen, words: &[u8], letters: &[u8]) {
    pen.label(words);
    pen.shown(letters);
    pen.end_line();
}

// What a bit that is 1 stands for.
fn named_bit(pen: &mut Pen, x: u16, k: u16, words: &[u8]) {
    if bit_of(x, k) {
        pen.text(words);
    }
}

fn feature_words(pen: &mut Pen, page: &[u8]) {
    let x = features(page);
    pen.label(b"features");
    pen.wide(x);
    named_bit(pen, x, 0, b"  16-bit bus (not taken)");
    named_bit(pen, x, 1, b"  more than one LUN");
    named_bit(pen, x, 2, b"  pages in any order");
    named_bit(pen, x, 8, b"  program-clear");
    pen.end_line();
}

fn optional_words(pen: &mut Pen, page: &[u8]) {
    let x = optional_commands(page);
    pen.label(b"optional commands");
    pen.wide(x);
    named_bit(pen, x, 2, b"  EEh and EFh");
    named_bit(pen, x, 3, b"  78h");
    named_bit(pen, x, 6, b"  06h");
    pen.end_line();
}

fn maker_words(pen: &mut Pen, page: &[u8]) {
    pen.label(b"maker ID");
    pen.byte(maker_id(page));
    pen.end_line();
}

fn cycle_words(pen: &mut Pen, page: &[u8]) {
    let n = address_cycles(page);
    pen.label(b"address cycles");
    pen.with_number(b"column ", (n / 16) as usize);
    pen.with_number(b", row ", (n % 16) as usize);
    if n != 0x23 {
        pen.text(b"  only column 2, row 3 is taken");
    }
    pen.end_line();
}

fn crc_words(pen: &mut Pen, page: &[u8]) {
    pen.label(b"CRC");
    pen.wide(stored_crc(page));
    pen.text(b"  of its bytes ");
    pen.wide(page_crc(page));
    pen.end_line();
}

fn length_words(pen: &mut Pen, l: Lengths) {
    pen.with_number(b"accepted, with an array of ", l.array);
    pen.with_number(b" bytes, registers of ", l.registers);
    pen.with_number(b", counts of ", l.counts);
    pen.with_number(b", flags of ", l.flags);
}

fn power_words(pen: &mut Pen, plan: Result<Lengths, Unplanned>) {
    pen.label(b"power-on");
    match plan {
        Ok(l) => length_words(pen, l),
        Err(Unplanned::Refused(why)) => pen.power_sentence(why),
        Err(Unplanned::TooLarge(l)) => {
            length_words(pen, l);
            pen.end_line();
            pen.label(b"nib");
            pen.text(
                b"holds arrays of at most 4194304 bytes; python3 -m nibtoggle has no such limit",
            );
        }
    }
    pen.end_line();
}

// What the page is, and what its part can do.
fn first_fields(pen: &mut Pen, page: &[u8]) {
    within(pen, b"length", page.len(), 256, 256);
    lettered(pen, b"signature", part_of(page, 0, 4));
    feature_words(pen, page);
    optional_words(pen, page);
}

fn maker_fields(pen: &mut Pen, page: &[u8]) {
    lettered(pen, b"maker", part_of(page, 32, 12));
    lettered(pen, b"model", part_of(page, 44, 20));
    maker_words(pen, page);
}

fn size_fields(pen: &mut Pen, page: &[u8]) {
    let most_luns = if bit_of(features(page), 1) { 4 } else { 1 };
    within(pen, b"data bytes", data_bytes(page), 16, 16384);
    within(pen, b"spare bytes", spare_bytes(page), 0, 2048);
    within(pen, b"pages a block", pages_a_block(page), 1, 256);
    within(pen, b"blocks a LUN", blocks_a_lun(page), 1, 4096);
    within(pen, b"LUNs", lun_count(page), 1, most_luns);
}

fn last_fields(pen: &mut Pen, page: &[u8]) {
    cycle_words(pen, page);
    within(pen, b"programs a page", programs_a_page(page), 1, 8);
    crc_words(pen, page);
    power_words(pen, plan_of(page));
}

// Field by field, and what power-on would answer.
fn shown(rt: HostRuntime, page: &Page) {
    let mut pen = Pen::new(rt, To::Output);
    first_fields(&mut pen, page);
    maker_fields(&mut pen, page);
    size_fields(&mut pen, page);
    last_fields(&mut pen, page);
    pen.flush();
}

// Each LUN and its number of blank blocks.
fn tell_blank(rt: HostRuntime, t: Target) {
    let mut pen = Pen::new(rt, To::Output);
    pen.label(b"blank blocks");
    for l in 0..t.geometry.luns.min(4) {
        let words: &[u8] = if l == 0 { b"LUN " } else { b", LUN " };
        pen.with_number(words, l);
        pen.with_number(b": ", blank_at(t.luns, l) as usize);
    }
    pen.end_line();
    pen.flush();
}

// Power-on counts the folder's blank blocks.
fn count_blank(rt: HostRuntime, dir: &[u8], part: &mut Buffers<'_>) -> Result<(), Told> {
    part.load(rt, dir)?;
    let t = part.power().map_err(|e| refuse(rt, dir, e.why))?;
    tell_blank(rt, t);
    Ok(())
}

// `nib page`, of a page in a file or of a part folder's. What is no page is told of as an error, and no field of it is made up.
#[inline(never)]
pub fn show_page(rt: HostRuntime, path: &[u8], part: &mut Buffers<'_>) -> Result<(), Told> {
    let inside = join(path, b"page");
    if open(rt, inside.as_slice()).is_err() {
        page_in(rt, path, &mut part.page)?;
        shown(rt, &part.page);
        return Ok(());
    }
    page_in(rt, inside.as_slice(), &mut part.page)?;
    shown(rt, &part.page);
    // of a part that nib doesn't hold the lines above have told
    if plan_of(&part.page).is_ok() {
        count_blank(rt, path, part)?;
    }
    Ok(())
}
