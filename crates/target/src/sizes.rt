// The house limits on a geometry, and the lengths that a geometry gives the lent buffers.
ghost use Rattle.std.specs.Prelude.{◌≡◌, true};
ghost use Rattle.target.specs.Sizes.{page_size, column_end, within, in_limits, sized};

use crate::Geometry;

// The page size P.
#[tactic(auto, unfolding(crate::specs::Sizes::page_size))]
pub fn page_size(g: Geometry) -> usize
    ensures { result ≡ page_size g }
{
    g.bytes as usize + g.spare as usize
}

// The end of the columns: of a page register, or of the parameter page.
pub fn column_end(g: Geometry, page: bool) -> usize
    ensures { result ≡ column_end g page }
{
    if page { 768 } else { page_size(g) }
}

pub fn within(low: usize, x: usize, high: usize) -> bool
    ensures { result ≡ within low x high }
{
    low <= x && x <= high
}

#[tactic(auto, unfolding(crate::specs::Sizes::in_limits))]
pub fn in_limits(g: Geometry) -> bool
    ensures { result ≡ in_limits g }
{
    within(16, g.bytes as usize, 16384)
        && g.spare <= 2048
        && within(1, g.pages, 256)
        && within(1, g.blocks, 4096)
        && within(1, g.luns, 4)
        && within(1, g.programs, 8)
}

// The limits keep the products within 64 bits; they are a `requires`, and docs/STATEMENTS.md names it.
#[tactic(auto, unfolding(crate::specs::Sizes::sized))]
pub fn sized(g: Geometry, array: usize, registers: usize, counts: usize, flags: usize) -> bool
    requires { in_limits g ≡ true }
    ensures { result ≡ sized g array registers counts flags }
{
    let blocks = g.luns * g.blocks;
    let pages = blocks * g.pages;
    let p = page_size(g);
    let bytes = pages * p;
    let registered = g.luns * p;
    array == bytes && registers == registered && counts == pages && flags == blocks
}
