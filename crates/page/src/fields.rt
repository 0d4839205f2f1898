// The fields of the page, least significant byte first.
#![tactic(auto, unfolding(crate::specs::Page::field, crate::specs::Page::bit_of, crate::specs::Page::features, crate::specs::Page::optional_commands, crate::specs::Page::maker_id, crate::specs::Page::data_bytes, crate::specs::Page::spare_bytes, crate::specs::Page::pages_a_block, crate::specs::Page::blocks_a_lun, crate::specs::Page::lun_count, crate::specs::Page::address_cycles, crate::specs::Page::programs_a_page, crate::specs::Page::stored_crc))]

ghost use Rattle.std.specs.Prelude.{◌≡◌};
ghost use Rattle.page.specs.Page.{field, bit_of, features, optional_commands, maker_id, data_bytes, spare_bytes, pages_a_block, blocks_a_lun, lun_count, address_cycles, programs_a_page, stored_crc};

use slices::byte_at;

pub fn field_1(page: &[u8], at: u8) -> u8
    ensures { result ≡ field page.now at 1 }
{
    byte_at(page, at as usize)
}

// Two functions for two widths, since their results differ in type, and each is one call of std.
pub fn field_2(page: &[u8], at: u8) -> u16
    ensures { result ≡ field page.now at 2 }
{
    let i = at as usize;
    u16::from_le_bytes([byte_at(page, i), byte_at(page, i + 1)])
}

pub fn field_4(page: &[u8], at: u8) -> usize
    ensures { result ≡ field page.now at 4 }
{
    let i = at as usize;
    u32::from_le_bytes([
        byte_at(page, i),
        byte_at(page, i + 1),
        byte_at(page, i + 2),
        byte_at(page, i + 3),
    ]) as usize
}

pub fn features(page: &[u8]) -> u16
    ensures { result ≡ features page.now }
{
    field_2(page, 6)
}

pub fn optional_commands(page: &[u8]) -> u16
    ensures { result ≡ optional_commands page.now }
{
    field_2(page, 8)
}

pub fn maker_id(page: &[u8]) -> u8
    ensures { result ≡ maker_id page.now }
{
    field_1(page, 64)
}

pub fn data_bytes(page: &[u8]) -> usize
    ensures { result ≡ data_bytes page.now }
{
    field_4(page, 80)
}

pub fn spare_bytes(page: &[u8]) -> usize
    ensures { result ≡ spare_bytes page.now }
{
    field_2(page, 84) as usize
}

pub fn pages_a_block(page: &[u8]) -> usize
    ensures { result ≡ pages_a_block page.now }
{
    field_4(page, 92)
}

pub fn blocks_a_lun(page: &[u8]) -> usize
    ensures { result ≡ blocks_a_lun page.now }
{
    field_4(page, 96)
}

pub fn lun_count(page: &[u8]) -> usize
    ensures { result ≡ lun_count page.now }
{
    field_1(page, 100) as usize
}

pub fn address_cycles(page: &[u8]) -> u8
    ensures { result ≡ address_cycles page.now }
{
    field_1(page, 101)
}

pub fn programs_a_page(page: &[u8]) -> usize
    ensures { result ≡ programs_a_page page.now }
{
    field_1(page, 110) as usize
}

pub fn stored_crc(page: &[u8]) -> u16
    ensures { result ≡ stored_crc page.now }
{
    field_2(page, 254)
}

// Bit `k` of `x` is 1.
pub fn bit_of(x: u16, k: u16) -> bool
    ensures { result ≡ bit_of x k }
{
    k < 16 && (x >> k) % 2 == 1
}
