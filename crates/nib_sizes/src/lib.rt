// What a part folder has to hold: the lengths of its files, from its parameter page.
#![tactic(auto)]

ghost use Rattle.std.specs.Prelude.{◌≡◌, true};
ghost use Rattle.target.specs.Sizes.{in_limits};
ghost use Rattle.nib_sizes.specs.Folder.{lengths_of, planned, known_of, Limited, plan_of};
ghost use Rattle.nib_sizes.specs.declared.Unplanned.TheVariants.{Refused};

use page::limits::{crc_good, fields_in_limits, is_signed};
use power::{PowerRefusal, geometry_of};
use target::Geometry;
use target::sizes::page_size;

#[derive(Clone, Copy)]
pub struct Lengths {
    pub array: usize,
    pub registers: usize,
    pub counts: usize,
    pub flags: usize,
}

// Why nib holds no part of a page.
#[derive(Clone, Copy)]
pub enum Unplanned {
    // what power-on refuses whatever the buffers are: 20 to 23
    Refused(PowerRefusal),
    // an array of more than 4 MiB, which a program with no heap doesn't hold
    TooLarge(Lengths),
}

impl From<PowerRefusal> for Unplanned {
    ghost from_gives = { λ why made. made ≡ Refused why };

    fn from(why: PowerRefusal) -> Unplanned {
        Unplanned::Refused(why)
    }
}

// The lengths that a geometry gives.
pub fn lengths_of(g: Geometry) -> Lengths
    requires { in_limits g ≡ true }
    ensures { result ≡ lengths_of g }
{
    let flags = g.luns * g.blocks;
    let counts = flags * g.pages;
    let p = page_size(g);
    Lengths {
        array: counts * p,
        registers: g.luns * p,
        counts,
        flags,
    }
}

pub fn planned(l: Lengths) -> Result<Lengths, Unplanned>
    ensures { result ≡ planned l }
{
    if 4194304 < l.array {
        Err(Unplanned::TooLarge(l))
    } else {
        Ok(l)
    }
}

// The part that a page describes.
#[tactic(auto, using(power::proofs::Answers::limited), unfolding(power::specs::Power::wrong_length, power::specs::Power::unsigned, power::specs::Power::crc_bad, power::specs::Power::field_bad))]
pub fn known_part(page: &[u8]) -> Result<Geometry, PowerRefusal>
    ensures value { result ≡ known_of page.now }
    ensures limited { Limited result }
{
    if page.len() != 256 {
        return Err(PowerRefusal::PageLength);
    }
    if !is_signed(page) {
        return Err(PowerRefusal::Signature);
    }
    if !crc_good(page) {
        return Err(PowerRefusal::Crc);
    }
    if !fields_in_limits(page) {
        return Err(PowerRefusal::Field);
    }
    Ok(geometry_of(page))
}

pub fn plan_of(page: &[u8]) -> Result<Lengths, Unplanned>
    ensures { result ≡ plan_of page.now }
{
    planned(lengths_of(known_part(page)?))
}
