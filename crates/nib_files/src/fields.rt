// The fields of a parameter page that are outside their limits, in words.
use nib_print::pen::Pen;
use page::fields::{
    address_cycles, bit_of, blocks_a_lun, data_bytes, features, lun_count, pages_a_block,
    programs_a_page, spare_bytes,
};

fn within(pen: &mut Pen, words: &[u8], n: usize, low: usize, high: usize) {
    if (low..=high).contains(&n) {
        return;
    }
    pen.text(b"; ");
    pen.text(words);
    pen.with_number(b": ", n);
    pen.with_number(b", and ", low);
    pen.with_number(b" to ", high);
    pen.text(b" are taken");
}

// Each field that power-on refuses with 23, after a semicolon.
pub fn outside(pen: &mut Pen, page: &[u8]) {
    within(pen, b"data bytes", data_bytes(page), 16, 16384);
    within(pen, b"spare bytes", spare_bytes(page), 0, 2048);
    within(pen, b"pages a block", pages_a_block(page), 1, 256);
    within(pen, b"blocks a LUN", blocks_a_lun(page), 1, 4096);
    within(pen, b"programs a page", programs_a_page(page), 1, 8);
    if bit_of(features(page), 0) {
        pen.text(b"; features: bit 0, a 16-bit bus, is set, and 8 bits are taken");
    }
    let luns = lun_count(page);
    within(pen, b"LUNs", luns, 1, 4);
    if 1 < luns && !bit_of(features(page), 1) {
        pen.with_number(b"; LUNs: ", luns);
        pen.text(b", and feature bit 1, more than one LUN, is clear");
    }
    let cycles = address_cycles(page);
    if cycles != 0x23 {
        pen.text(b"; address cycles: ");
        pen.byte(cycles);
        pen.text(b", and 23h, two of the column and three of the row, is taken");
    }
}
