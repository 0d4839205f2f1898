// Row and column addresses: how cycles build them, and the fields of a row.
ghost use Rattle.std.specs.Prelude.{◌≡◌, ◌/◌, ◌%◌, ◌^◌};
ghost use Rattle.target.specs.Address.{field_width, column_from, row_from, page_of, block_of, lun_of, lun_exists, block_exists, row_exists};

use crate::{Column, Geometry, Row};

// The fewest bits that hold the numbers below `n`, found without a loop.
pub fn width(n: usize) -> u32
    ensures { result ≡ field_width n }
{
    if n == 0 {
        0
    } else {
        64 - usize::leading_zeros(n - 1)
    }
}

// The bits of `x` from bit `w` on.
pub fn bits_above(x: usize, w: u32) -> usize
    ensures { result ≡ x / 2 ^ w }
{
    if w < 64 { x >> w } else { 0 }
}

// The lowest `w` bits of `x`.
pub fn bits_below(x: usize, w: u32) -> usize
    ensures { result ≡ x % 2 ^ w }
{
    if w < 64 { x % (1usize << w) } else { x }
}

// A column of its two cycles.
#[tactic(auto, unfolding(crate::specs::Address::column_from))]
pub fn column_from(low: u8, high: u8) -> Column
    ensures { result ≡ column_from low high }
{
    Column(low as usize + 256 * (high as usize))
}

// A row of its three cycles.
#[tactic(auto, unfolding(crate::specs::Address::row_from))]
pub fn row_from(low: u8, mid: u8, high: u8) -> Row
    ensures { result ≡ row_from low mid high }
{
    Row(low as usize + 256 * (mid as usize) + 65536 * (high as usize))
}

#[tactic(auto, unfolding(crate::specs::Address::page_of))]
pub fn page_of(g: Geometry, r: Row) -> usize
    ensures { result ≡ page_of g r }
{
    bits_below(r.0, width(g.pages))
}

#[tactic(auto, unfolding(crate::specs::Address::block_of))]
pub fn block_of(g: Geometry, r: Row) -> usize
    ensures { result ≡ block_of g r }
{
    bits_below(bits_above(r.0, width(g.pages)), width(g.blocks))
}

#[tactic(auto, unfolding(crate::specs::Address::lun_of))]
pub fn lun_of(g: Geometry, r: Row) -> usize
    ensures { result ≡ lun_of g r }
{
    bits_above(bits_above(r.0, width(g.pages)), width(g.blocks))
}

// 78h and 06h: only the LUN field is looked at.
#[tactic(auto, unfolding(crate::specs::Address::lun_exists))]
pub fn lun_exists(g: Geometry, r: Row) -> bool
    ensures { result ≡ lun_exists g r }
{
    lun_of(g, r) < g.luns
}

// 60h: the page bits are not looked at.
#[tactic(auto, unfolding(crate::specs::Address::block_exists))]
pub fn block_exists(g: Geometry, r: Row) -> bool
    ensures { result ≡ block_exists g r }
{
    block_of(g, r) < g.blocks && lun_exists(g, r)
}

// 00h and 80h: page, block and LUN all exist.
#[tactic(auto, unfolding(crate::specs::Address::row_exists))]
pub fn row_exists(g: Geometry, r: Row) -> bool
    ensures { result ≡ row_exists g r }
{
    page_of(g, r) < g.pages && block_exists(g, r)
}
