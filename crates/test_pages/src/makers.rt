// Makers' pages, and pages of drawn bytes.
use page::crc::page_crc;
use page::fields::{
    address_cycles, blocks_a_lun, data_bytes, features, lun_count, maker_id, optional_commands,
    pages_a_block, programs_a_page, spare_bytes, stored_crc,
};
use page::limits::{crc_good, fields_in_limits, is_signed};
use power::{power_answer, power_number};
use test_kit::files::load;
use test_kit::random::{SEED, drawn};
use test_pages_powers::parts::{front, lengths_of};

fn show_fields(rt: HostRuntime, page: &[u8]) {
    let _ = print!(rt;
        " signed {} good {}",
        is_signed(page) as u8,
        crc_good(page) as u8
    );
    let _ = print!(rt;
        " features {} optional {}",
        features(page),
        optional_commands(page)
    );
    let _ = print!(rt;
        " maker {} data {} spare {}",
        maker_id(page),
        data_bytes(page),
        spare_bytes(page)
    );
    let _ = print!(rt;
        " pages {} blocks {} luns {}",
        pages_a_block(page),
        blocks_a_lun(page),
        lun_count(page)
    );
    let _ = print!(rt;
        " cycles {} programs {}",
        address_cycles(page),
        programs_a_page(page)
    );
    let _ = print!(rt; " limits {}", fields_in_limits(page) as u8);
}

// Power-on with the lengths that the page gives: its array is above 4 GiB, and goes in as a length.
fn answer_on(page: &[u8], counts: &[u8; 1048576], flags: &[u8; 20480]) -> u8 {
    let size = data_bytes(page).saturating_add(spare_bytes(page));
    let pages = pages_a_block(page);
    let l = lengths_of(size, pages, blocks_a_lun(page), lun_count(page));
    let answer = power_answer(
        page,
        l.array,
        l.registers,
        front(counts, l.counts),
        front(flags, l.flags),
    );
    power_number(answer)
}

// Apart from the above, since the proof of a slice of so large an array doesn't close where the array is made.
fn answer_of(page: &[u8]) -> u8 {
    let counts = [0u8; 1048576];
    let flags = [0u8; 20480];
    answer_on(page, &counts, &flags)
}

fn show_maker(rt: HostRuntime, k: usize, page: &[u8]) {
    let _ = print!(rt;
        "maker {k} crc {:04x} stored {:04x}",
        page_crc(page),
        stored_crc(page)
    );
    show_fields(rt, page);
    let _ = println!(rt; " answer {}", answer_of(page));
}

pub fn makers_pages(rt: HostRuntime) {
    let mut all = [0u8; 3072];
    let n = load(rt, b"makers", &mut all);
    for (k, page) in all[..n].chunks_exact(256).enumerate() {
        show_maker(rt, k, page);
    }
}

// 256 drawn pages of 256 drawn bytes.
pub fn draw_pages(rt: HostRuntime) {
    let mut x = SEED;
    for n in 0..256 {
        let mut page = [0u8; 256];
        for b in &mut page {
            x = drawn(x);
            *b = (x % 256) as u8;
        }
        let _ = println!(rt; "crc {n} {:04x}", page_crc(&page));
    }
}
