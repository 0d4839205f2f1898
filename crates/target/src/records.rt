// The LUN records: which LUNs work, and how a record changes. A record is made and changed here alone.
ghost use Rattle.std.specs.Prelude.{◌≡◌, not};
ghost use Rattle.target.specs.Luns.{lun_ready, lun_begun, lun_finished, lun_closed, is_unused, lun_at, works, failed, copyback_at, blank_at, all_readied, any_works, others_work};

use crate::{Lun, Luns};

// Ready, with FAIL 0 and no copyback, and with so many blank blocks.
pub fn lun_ready(blank: u16) -> Lun
    ensures { result ≡ lun_ready blank }
{
    Lun {
        working: false,
        fail: false,
        copyback: false,
        blank,
    }
}

// Work begins, and sets FAIL afresh; it may open a copyback, or close the one that is open, and change the number of blank blocks.
pub fn lun_begun(old: Lun, fail: bool, opens: bool, closes: bool, blank: u16) -> Lun
    ensures { result ≡ lun_begun old fail opens closes blank }
{
    Lun {
        working: true,
        fail,
        copyback: opens || (old.copyback && !closes),
        blank,
    }
}

// A row closes the copyback.
pub fn lun_closed(old: Lun) -> Lun
    ensures { result ≡ lun_closed old }
{
    Lun {
        copyback: false,
        ..old
    }
}

// Work has come to its end; FAIL and the copyback stay.
pub fn lun_finished(old: Lun) -> Lun
    ensures { result ≡ lun_finished old }
{
    Lun {
        working: false,
        ..old
    }
}

// The record of a LUN that does not exist, as power-on makes it: mark by mark, as the definition has it.
pub fn is_unused(x: Lun) -> bool
    ensures { result ≡ is_unused x }
{
    !x.working && !x.fail && !x.copyback && x.blank == 0
}

// The LUN's record; one that does not exist is ready.
pub fn lun_at(luns: Luns, l: usize) -> Lun
    ensures { result ≡ lun_at luns l }
{
    if l < 4 { luns[l] } else { lun_ready(0) }
}

pub fn works(luns: Luns, l: usize) -> bool
    ensures { result ≡ works luns l }
{
    lun_at(luns, l).working
}

// The LUN's FAIL.
pub fn failed(luns: Luns, l: usize) -> bool
    ensures { result ≡ failed luns l }
{
    lun_at(luns, l).fail
}

// How many blocks of the LUN are blank.
pub fn blank_at(luns: Luns, l: usize) -> u16
    ensures { result ≡ blank_at luns l }
{
    lun_at(luns, l).blank
}

// Every LUN made ready; the numbers of blank blocks stay.
pub fn all_readied(luns: Luns) -> Luns
    ensures { result ≡ all_readied luns }
{
    [
        lun_ready(blank_at(luns, 0)),
        lun_ready(blank_at(luns, 1)),
        lun_ready(blank_at(luns, 2)),
        lun_ready(blank_at(luns, 3)),
    ]
}

// A copyback is open on the LUN.
pub fn copyback_at(luns: Luns, l: usize) -> bool
    ensures { result ≡ copyback_at luns l }
{
    lun_at(luns, l).copyback
}

pub fn any_works(luns: Luns) -> bool
    ensures { result ≡ any_works luns }
{
    works(luns, 0) || works(luns, 1) || works(luns, 2) || works(luns, 3)
}

// A LUN other than `l` works.
pub fn others_work(luns: Luns, l: usize) -> bool
    ensures { result ≡ others_work luns l }
{
    (l != 0 && works(luns, 0))
        || (l != 1 && works(luns, 1))
        || (l != 2 && works(luns, 2))
        || (l != 3 && works(luns, 3))
}
