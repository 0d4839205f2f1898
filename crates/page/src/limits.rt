// What power-on asks of a page: the signature, the CRC, the house limits.
ghost use Rattle.std.specs.Prelude.{◌≡◌};
ghost use Rattle.page.specs.Page.{signed, crc_good, fields_in_limits};

use crate::crc::page_crc;
use crate::fields::{
    address_cycles, bit_of, blocks_a_lun, data_bytes, features, lun_count, pages_a_block,
    programs_a_page, spare_bytes, stored_crc,
};

#[tactic(auto, using(crate::proofs::Signed::signed_starts))]
pub fn is_signed(page: &[u8]) -> bool
    ensures { result ≡ signed page.now }
{
    page.starts_with(b"ONFI")
}

#[tactic(auto, unfolding(crate::specs::Page::crc_good))]
pub fn crc_good(page: &[u8]) -> bool
    ensures { result ≡ crc_good page.now }
{
    page_crc(page) == stored_crc(page)
}

#[tactic(auto, using(crate::proofs::Ranges::within), unfolding(crate::specs::Page::fields_in_limits, crate::specs::Page::data_in_limits, crate::specs::Page::spare_in_limits, crate::specs::Page::pages_in_limits, crate::specs::Page::blocks_in_limits, crate::specs::Page::luns_in_limits, crate::specs::Page::luns_as_featured, crate::specs::Page::narrow_bus, crate::specs::Page::cycles_as_house, crate::specs::Page::programs_in_limits))]
pub fn fields_in_limits(page: &[u8]) -> bool
    ensures { result ≡ fields_in_limits page.now }
{
    // `&`, since with `&&`, which asks for nine branches, the proof didn't close.
    let luns = lun_count(page);
    let offered = features(page);
    (16..=16384).contains(&data_bytes(page))
        & (spare_bytes(page) <= 2048)
        & (1..=256).contains(&pages_a_block(page))
        & (1..=4096).contains(&blocks_a_lun(page))
        & (1..=4).contains(&luns)
        & ((luns <= 1) | bit_of(offered, 1))
        & !bit_of(offered, 0)
        & (address_cycles(page) == 0x23)
        & (1..=8).contains(&programs_a_page(page))
}
