// The LUN records after an event. All by value. The limits are asked by a `requires`, as in `blocks`.
#![tactic(auto)]

ghost use Rattle.std.specs.Prelude.{◌≡◌, true, ◌-◌, set};
ghost use Rattle.target.specs.Sizes.{in_limits};
ghost use Rattle.lun_records.specs.LunsAfter.{begun, one_more, blank_after, end_closes, ended_luns, addressed_luns, finished, luns_after};

use target::address::lun_of;
use target::commands::{Act, closes_copyback, needs_copyback, second_row};
use target::events::{Kind, is_reset};
use target::records::{all_readied, blank_at, lun_at, lun_begun, lun_closed, lun_finished};
use target::views::{Ended, Given, completed, ending};
use target::{Event, Findings, Geometry, Lun, Luns, Row, Sequence};

// One LUN's record replaced, if there is such a LUN.
pub fn with_lun(luns: Luns, l: usize, x: Lun) -> Luns
    ensures { result ≡ set luns l x }
{
    let mut n = luns;
    if l < 4 {
        n[l] = x;
    }
    n
}

pub fn begun(
    g: Geometry,
    luns: Luns,
    r: Row,
    fail: bool,
    opens: bool,
    closes: bool,
    blank: u16,
) -> Luns
    ensures { result ≡ begun g luns r fail opens closes blank }
{
    let l = lun_of(g, r);
    let lun = lun_begun(lun_at(luns, l), fail, opens, closes, blank);
    with_lun(luns, l, lun)
}

// One less, and never below 0.
pub fn one_less(n: u16) -> u16
    ensures { result ≡ n - 1 }
{
    n.saturating_sub(1)
}

// One more, and never above the LUN's blocks.
pub fn one_more(g: Geometry, n: u16) -> u16
    requires { in_limits g ≡ true }
    ensures { result ≡ one_more g n }
{
    if (n as usize) < g.blocks { n + 1 } else { n }
}

// The number of blank blocks moves with a program of a blank block and with an erase of one that is not, where they proceed.
pub fn blank_after(g: Geometry, a: Act, found: Findings, n: u16) -> u16
    requires { in_limits g ≡ true }
    ensures { result ≡ blank_after g a found n }
{
    match a {
        Act::Program if found.proceeds && found.blank => one_less(n),
        Act::Erase if found.proceeds && !found.blank => one_more(g, n),
        _ => n,
    }
}

// 30h, D0h or a copyback's 10h.
pub fn end_closes(k: Ended) -> bool
    ensures { result ≡ end_closes k }
{
    second_row(k.second).closes || needs_copyback(k.first)
}

// FAIL is 1 where a program or an erase does not proceed.
pub fn ended_luns(g: Geometry, luns: Luns, k: Option<Ended>, found: Findings) -> Luns
    requires { in_limits g ≡ true }
    ensures { result ≡ ended_luns g luns k found }
{
    match k {
        Some(k) if second_row(k.second).starts => {
            let row = second_row(k.second);
            let blank = blank_after(g, row.act, found, blank_at(luns, lun_of(g, k.row)));
            begun(
                g,
                luns,
                k.row,
                !found.proceeds,
                row.opens,
                end_closes(k),
                blank,
            )
        }
        _ => luns,
    }
}

pub fn finished(luns: Luns, l: usize) -> Luns
    ensures { result ≡ finished luns l }
{
    with_lun(luns, l, lun_finished(lun_at(luns, l)))
}

// 80h's row closes the copyback of its LUN.
pub fn addressed_luns(g: Geometry, luns: Luns, k: Option<Given>) -> Luns
    ensures { result ≡ addressed_luns g luns k }
{
    match k {
        Some(Given::Row(k)) if closes_copyback(k.first) => {
            let l = lun_of(g, k.row);
            with_lun(luns, l, lun_closed(lun_at(luns, l)))
        }
        _ => luns,
    }
}

#[tactic(auto, unfolding(crate::specs::LunsAfter::luns_after))]
pub fn luns_after(g: Geometry, luns: Luns, s: Sequence, e: Event, found: Findings) -> Luns
    requires { in_limits g ≡ true }
    ensures { result ≡ luns_after g luns s e found }
{
    if is_reset(e) {
        return all_readied(luns);
    }
    match e.kind() {
        Some(Kind::Command) => ended_luns(g, luns, ending(s, e.value), found),
        Some(Kind::Address) => addressed_luns(g, luns, completed(s, e.value)),
        Some(Kind::Finish) => finished(luns, e.value as usize),
        _ => luns,
    }
}
