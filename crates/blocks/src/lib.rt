// A page and its block among the counts and flags, and what those say of them. Limits and rows that exist are asked by a `requires`,
// and no type holds them: docs/STATEMENTS.md names each of these functions with what it asks, so none is an inner one.
#![tactic(auto)]

ghost use Rattle.std.specs.Prelude.{◌≡◌, true, ◌*◌, ◌<◌, ◌≤◌};
ghost use Rattle.target.specs.Pick.{pick};
ghost use Rattle.target.specs.Address.{row_exists, block_exists};
ghost use Rattle.target.specs.Sizes.{in_limits};
ghost use Rattle.blocks.specs.Blocks.{block_index, page_index, block_bad, page_full, higher_written, out_of_order, blank_block, blanks_from, blank_blocks};

use slices::{byte_at, some_set_part};
use target::address::{block_of, lun_of, page_of};
use target::bits::has_feature;
use target::{Geometry, Row, Words};

#[tactic(auto, unfolding(crate::specs::Blocks::block_index))]
pub fn block_index(g: Geometry, r: Row) -> usize
    requires { (in_limits g ≡ true) × (block_exists g r ≡ true) }
    ensures { result ≡ block_index g r }
{
    lun_of(g, r) * g.blocks + block_of(g, r)
}

#[tactic(auto, unfolding(crate::specs::Blocks::page_index))]
pub fn page_index(g: Geometry, r: Row) -> usize
    requires { (in_limits g ≡ true) × (row_exists g r ≡ true) }
    ensures { result ≡ page_index g r }
{
    block_index(g, r) * g.pages + page_of(g, r)
}

#[tactic(auto, unfolding(crate::specs::Blocks::block_bad))]
pub fn block_bad(g: Geometry, r: Row, flags: &[u8]) -> bool
    requires { (in_limits g ≡ true) × (block_exists g r ≡ true) }
    ensures { result ≡ block_bad g r flags.now }
{
    byte_at(flags, block_index(g, r)) != 0
}

#[tactic(auto, unfolding(crate::specs::Blocks::page_full))]
pub fn page_full(g: Geometry, r: Row, counts: &[u8]) -> bool
    requires { (in_limits g ≡ true) × (row_exists g r ≡ true) }
    ensures { result ≡ page_full g r counts.now }
{
    let n = byte_at(counts, page_index(g, r)) as usize;
    g.programs <= n
}

// A higher page of the block has been programmed since its last erase.
#[tactic(auto, unfolding(crate::specs::Blocks::higher_written))]
pub fn higher_written(g: Geometry, r: Row, counts: &[u8]) -> bool
    requires { (in_limits g ≡ true) × (row_exists g r ≡ true) }
    ensures { result ≡ higher_written g r counts.now }
{
    let first = page_index(g, r) + 1;
    some_set_part(counts, first, g.pages - (page_of(g, r) + 1))
}

// Most parts want a block's pages programmed upward.
#[tactic(auto, unfolding(crate::specs::Blocks::out_of_order))]
pub fn out_of_order(g: Geometry, w: Words, r: Row, counts: &[u8]) -> bool
    requires { (in_limits g ≡ true) × (row_exists g r ≡ true) }
    ensures { result ≡ out_of_order g w r counts.now }
{
    !has_feature(w, 2) && higher_written(g, r, counts)
}

// The block, counted over all LUNs, is not bad and has not been programmed since its last erase.
#[tactic(auto, unfolding(crate::specs::Blocks::blank_block))]
pub fn blank_block(g: Geometry, b: usize, counts: &[u8], flags: &[u8]) -> bool
    requires { (in_limits g ≡ true) × (b < g.luns * g.blocks) }
    ensures { result ≡ blank_block g b counts.now flags.now }
{
    byte_at(flags, b) == 0 && !some_set_part(counts, b * g.pages, g.pages)
}

// 1 where the test holds, else 0.
pub fn one_if(b: bool) -> u16
    ensures { (result ≡ pick b 1 0) × (result ≤ 1) }
{
    u16::from(b)
}

// How many blocks of the LUN are blank, in one pass over its counts.
pub fn blank_blocks(g: Geometry, l: usize, counts: &[u8], flags: &[u8]) -> u16
    requires { (in_limits g ≡ true) × (l < g.luns) }
    ensures { result ≡ blank_blocks g l counts.now flags.now }
{
    let first = l * g.blocks;
    let mut n: u16 = 0;
    for i in 0..g.blocks {
        n += one_if(blank_block(g, first + i, counts, flags));
    }
    n
}
