// The places that a job's words name, on a part: which values the part has (`on_part`), the values of a job as they come
// (`Values`), and LUN, block and page as a row (`row_of`). All by value, with no `requires`.
#![tactic(auto)]

ghost use Rattle.std.specs.Prelude.{◌≡◌, true, ◌^◌, ◌<◌};
ghost use Rattle.nib_text.specs.declared.reading.Said.TheVariants as said;
ghost use Rattle.nib_places.specs.Places.{rows_fit, is_there, row_of, ranged, on_part, no_values, stored, job_of};

use jobs::Job;
use jobs::reading::First;
use nib_text::job_words::Asks;
use nib_text::reading::{Said, Wrong};
use target::Geometry;
use target::address::width;
use target::sizes::page_size;

// The values that a job has so far.
#[derive(Clone, Copy)]
pub struct Values {
    pub lun: usize,
    pub block: usize,
    pub page: usize,
    pub column: usize,
    pub count: usize,
}

// Every row of the part has at most 24 bits.
pub fn rows_fit(g: Geometry) -> bool
    ensures { result ≡ rows_fit g }
{
    width(g.pages) as u64 + width(g.blocks) as u64 + width(g.luns) as u64 <= 24
}

// The part has that page.
pub fn is_there(g: Geometry, lun: usize, block: usize, page: usize) -> bool
    ensures { result ≡ is_there g lun block page }
{
    rows_fit(g) && lun < g.luns && block < g.blocks && page < g.pages
}

fn power(w: u32) -> usize
    requires { w < 64 }
    ensures { result ≡ 2 ^ w }
{
    1usize << w
}

// The row of a page; where the part has no such page, a number that is no row, since the writer of jobs refuses it as too wide,
// and C is given it (`nib_row_number`).
#[tactic(auto, using(crate::proofs::Rows::small, crate::proofs::Rows::narrow_widths), unfolding(crate::specs::Places::row_of))]
pub fn row_of(g: Geometry, lun: usize, block: usize, page: usize) -> usize
    ensures { result ≡ row_of g lun block page }
{
    if is_there(g, lun, block, page) {
        let blocks = power(width(g.blocks));
        let pages = power(width(g.pages));
        (lun * blocks + block) * pages + page
    } else {
        16777216
    }
}

fn within(there: bool, of: Option<Asks>, number: usize, why: Wrong) -> Said
    ensures { result ≡ ranged there of number why }
{
    if there {
        Said::Value { of, number }
    } else {
        Said::Wrong(why)
    }
}

// A value of a job, on a part that has it or has not.
fn value_on(g: Geometry, of: Option<Asks>, number: usize) -> Said
    ensures { result ≡ on_part g (said.Value of number) }
{
    match of {
        Some(Asks::Lun) => within(number < g.luns, of, number, Wrong::NoLun),
        Some(Asks::Block) => within(number < g.blocks, of, number, Wrong::NoBlock),
        Some(Asks::Page) => within(number < g.pages, of, number, Wrong::NoPage),
        Some(Asks::Column) => within(number < page_size(g), of, number, Wrong::NoColumn),
        None | Some(Asks::Count | Asks::Byte) => Said::Value { of, number },
    }
}

// What a text says, on a part.
pub fn on_part(g: Geometry, s: Said) -> Said
    ensures { result ≡ on_part g s }
{
    match s {
        Said::Value { of, number } => value_on(g, of, number),
        _ => s,
    }
}

pub fn no_values() -> Values
    ensures { result ≡ no_values }
{
    Values {
        lun: 0,
        block: 0,
        page: 0,
        column: 0,
        count: 0,
    }
}

// The values with one more. A LUN is the first of a new job's.
pub fn stored(v: Values, of: Option<Asks>, number: usize) -> Values
    ensures { result ≡ stored v of number }
{
    match of {
        Some(Asks::Lun) => Values {
            lun: number,
            ..no_values()
        },
        Some(Asks::Block) => Values { block: number, ..v },
        Some(Asks::Page) => Values { page: number, ..v },
        Some(Asks::Column) => Values {
            column: number,
            ..v
        },
        Some(Asks::Count) => Values { count: number, ..v },
        None | Some(Asks::Byte) => v,
    }
}

// The job of these values.
pub fn job_of(g: Geometry, f: Option<First>, v: Values) -> Option<Job>
    ensures { result ≡ job_of g f v }
{
    let row = row_of(g, v.lun, v.block, v.page);
    let Values { column, count, .. } = v;
    match f {
        None => None,
        Some(First::Read) => Some(Job::Read { column, row }),
        Some(First::ReadOut) => Some(Job::ReadOut { column, row, count }),
        Some(First::Program) => Some(Job::Program { column, row }),
        Some(First::Erase) => Some(Job::Erase { row }),
        Some(First::Status) => Some(Job::Status { row, count }),
    }
}
