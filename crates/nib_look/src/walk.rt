// The pages of a part one after the other, as the array, the counts and the flags have them.
ghost use Rattle.std.specs.Prelude.{◌≡◌};
ghost use Rattle.nib_look.specs.Walk.{first_place, farther, next_place, is_at, sought, same_sizes};

use nib_text::reading::up;
use target::Geometry;
use target::sizes::page_size;

#[derive(Clone, Copy)]
pub struct Place {
    pub lun: usize,
    pub block: usize,
    pub page: usize,
    // its number among the counts, that of its block among the flags, and where it starts in the array
    pub count: usize,
    pub flag: usize,
    pub start: usize,
}

pub fn first_place() -> Place
    ensures { result ≡ first_place }
{
    Place {
        lun: 0,
        block: 0,
        page: 0,
        count: 0,
        flag: 0,
        start: 0,
    }
}

// No array is as long as that.
fn farther(start: usize, n: usize) -> usize
    ensures { result ≡ farther start n }
{
    if start < 1000000000000 {
        start + n % 1000000
    } else {
        start
    }
}

// The page after a page: the next of its block, else the first of the next block, else that of the next LUN.
pub fn next_place(g: Geometry, p: Place) -> Place
    ensures { result ≡ next_place g p }
{
    let next = Place {
        count: up(p.count),
        start: farther(p.start, page_size(g)),
        ..p
    };
    if up(p.page) < g.pages {
        Place {
            page: up(p.page),
            ..next
        }
    } else if up(p.block) < g.blocks {
        Place {
            page: 0,
            block: up(p.block),
            flag: up(p.flag),
            ..next
        }
    } else {
        Place {
            page: 0,
            block: 0,
            lun: up(p.lun),
            flag: up(p.flag),
            ..next
        }
    }
}

fn is_at(p: Place, lun: usize, block: usize, page: usize) -> bool
    ensures { result ≡ is_at p lun block page }
{
    p.lun == lun && p.block == block && p.page == page
}

// One step more towards a page, and none from there on.
pub fn sought(g: Geometry, p: Place, lun: usize, block: usize, page: usize) -> Place
    ensures { result ≡ sought g p lun block page }
{
    if is_at(p, lun, block, page) {
        p
    } else {
        next_place(g, p)
    }
}

// Two parts have the same sizes, and so many programs a page: size by size, as the definition has it.
pub fn same_sizes(g: Geometry, h: Geometry) -> bool
    ensures { result ≡ same_sizes g h }
{
    g.bytes == h.bytes
        && g.spare == h.spare
        && g.pages == h.pages
        && g.blocks == h.blocks
        && g.luns == h.luns
        && g.programs == h.programs
}
