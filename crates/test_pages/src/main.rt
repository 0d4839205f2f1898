// Runs the parameter page's functions and power-on on many pages, and writes a line for each. The file `stdout` has the lines
// that tools/expect/pages.py, a second program written from document 01's words, expects; it has the same list of cases.
#![tactic(auto)]

mod cases;
mod crcs;
mod makers;

use cases::{
    accepted, bits, contents, drawn_cases, early_bytes, high_bits, highest, larges, late_bytes,
    lowest, outside, sets_of_t1, sets_of_t2, single,
};
use crcs::{entries, knowns};
use makers::{draw_pages, makers_pages};

fn main(rt: HostRuntime) {
    entries(rt);
    knowns(rt);
    makers_pages(rt);
    draw_pages(rt);
    accepted(rt);
    lowest(rt);
    highest(rt);
    outside(rt);
    bits(rt);
    high_bits(rt);
    sets_of_t1(rt);
    sets_of_t2(rt);
    single(rt);
    contents(rt);
    late_bytes(rt);
    early_bytes(rt);
    drawn_cases(rt);
    larges(rt);
}
