// Power-on: from a parameter page and the lent buffers to a powered target, or to the right refusal.
#![tactic(auto, unfolding(crate::specs::Power::geometry_of, crate::specs::Power::words_of, crate::specs::Power::walked, crate::specs::Power::powered_of, crate::specs::Power::unpowered, crate::specs::Power::wrong_length, crate::specs::Power::unsigned, crate::specs::Power::crc_bad, crate::specs::Power::field_bad, crate::specs::Power::buffer_bad, crate::specs::Power::content_bad, crate::specs::Power::or_refused, crate::specs::Power::power_answer, crate::specs::Power::power_of))]

ghost use Rattle.std.specs.Prelude.{◌≡◌, true};
ghost use Rattle.target.specs.Sizes.{in_limits};
ghost use Rattle.page.specs.Page.{fields_in_limits};
ghost use Rattle.power.specs.Power.{refusal_number, power_number, geometry_of, words_of, walked, luns_found, powered_of, unpowered, power_answer, told, power_of};

use blocks::blank_blocks;
use page::fields::{
    blocks_a_lun, data_bytes, features, lun_count, maker_id, optional_commands, pages_a_block,
    programs_a_page, spare_bytes,
};
use page::limits::{crc_good, fields_in_limits, is_signed};
use slices::at_most;
use target::records::lun_ready;
use target::sizes::sized;
use target::{Decoder, Geometry, Ids, Lun, Luns, Output, Sequence, Target, Words};

#[derive(Clone, Copy)]
pub enum PowerRefusal {
    // 20
    PageLength,
    // 21
    Signature,
    // 22
    Crc,
    // 23
    Field,
    // 24
    BufferLength,
    // 25
    Content,
}

impl PowerRefusal {
    // Its number, 20 to 25.
    pub fn number(self) -> u8
        ensures { result ≡ refusal_number self }
    {
        match self {
            PowerRefusal::PageLength => 20,
            PowerRefusal::Signature => 21,
            PowerRefusal::Crc => 22,
            PowerRefusal::Field => 23,
            PowerRefusal::BufferLength => 24,
            PowerRefusal::Content => 25,
        }
    }
}

// A refused power-on: why, and the target that its host has then, which is unpowered.
#[derive(Clone, Copy)]
pub struct NotPowered {
    pub why: PowerRefusal,
    pub target: Target,
}

// The number of an answer, 0 for a success.
pub fn power_number(answer: Result<(), PowerRefusal>) -> u8
    ensures { result ≡ power_number answer }
{
    match answer {
        Ok(()) => 0,
        Err(why) => why.number(),
    }
}

// The sizes that a page within the limits gives.
pub fn geometry_of(page: &[u8]) -> Geometry
    requires { fields_in_limits page.now ≡ true }
    ensures { result ≡ geometry_of page.now }
{
    Geometry {
        bytes: data_bytes(page) as u16,
        spare: spare_bytes(page) as u16,
        pages: pages_a_block(page),
        blocks: blocks_a_lun(page),
        luns: lun_count(page),
        programs: programs_a_page(page),
    }
}

pub fn words_of(page: &[u8]) -> Words
    ensures { result ≡ words_of page.now }
{
    Words {
        features: features(page),
        optional: optional_commands(page),
    }
}

// How many blocks of the LUN are blank; one that does not exist has none.
pub fn walked(g: Geometry, counts: &[u8], flags: &[u8], l: usize) -> u16
    requires { in_limits g ≡ true }
    ensures { result ≡ walked g counts.now flags.now l }
{
    if l < g.luns {
        blank_blocks(g, l, counts, flags)
    } else {
        0
    }
}

// Every LUN ready, with its blank blocks counted.
fn luns_found(g: Geometry, counts: &[u8], flags: &[u8]) -> Luns
    requires { in_limits g ≡ true }
    ensures { result ≡ luns_found g counts.now flags.now }
{
    [
        lun_ready(walked(g, counts, flags, 0)),
        lun_ready(walked(g, counts, flags, 1)),
        lun_ready(walked(g, counts, flags, 2)),
        lun_ready(walked(g, counts, flags, 3)),
    ]
}

#[tactic(auto, using(crate::proofs::Answers::limited), unfolding(crate::specs::Power::powered_of))]
pub fn powered_of(page: &[u8], device: u8, counts: &[u8], flags: &[u8]) -> Target
    requires { fields_in_limits page.now ≡ true }
    ensures { result ≡ powered_of page.now device counts.now flags.now }
{
    let geometry = geometry_of(page);
    Target {
        powered: true,
        geometry,
        words: words_of(page),
        ids: Ids {
            maker: maker_id(page),
            device,
        },
        high: true,
        clear: false,
        seen: false,
        selected: 0,
        luns: luns_found(geometry, counts, flags),
        decoder: Decoder {
            sequence: Sequence::Idle,
            output: Output::Nothing,
            kept: Output::Nothing,
        },
    }
}

// An unpowered target.
pub fn unpowered() -> Target
    ensures { result ≡ unpowered }
{
    Target {
        powered: false,
        geometry: Geometry {
            bytes: 0,
            spare: 0,
            pages: 0,
            blocks: 0,
            luns: 0,
            programs: 0,
        },
        words: Words {
            features: 0,
            optional: 0,
        },
        ids: Ids {
            maker: 0,
            device: 0,
        },
        high: false,
        clear: false,
        seen: false,
        selected: 0,
        luns: [lun_ready(0); 4],
        decoder: Decoder {
            sequence: Sequence::Idle,
            output: Output::Nothing,
            kept: Output::Nothing,
        },
    }
}

// What the rules say, lowest first.
pub fn power_answer(
    page: &[u8],
    array: usize,
    registers: usize,
    counts: &[u8],
    flags: &[u8],
) -> Result<(), PowerRefusal>
    ensures { result ≡ power_answer page.now array registers counts.now flags.now }
{
    if page.len() != 256 {
        return Err(PowerRefusal::PageLength);
    }
    if !is_signed(page) {
        return Err(PowerRefusal::Signature);
    }
    if !crc_good(page) {
        return Err(PowerRefusal::Crc);
    }
    if !fields_in_limits(page) {
        return Err(PowerRefusal::Field);
    }
    if !sized(
        geometry_of(page),
        array,
        registers,
        counts.len(),
        flags.len(),
    ) {
        return Err(PowerRefusal::BufferLength);
    }
    if !(at_most(counts, programs_a_page(page) as u8) && at_most(flags, 1)) {
        return Err(PowerRefusal::Content);
    }
    Ok(())
}

// Power-on. The array, the counts and the flags are only looked at. A refusal changes no lent byte, and gives the unpowered target.
pub fn power_on(
    page: &[u8],
    device: u8,
    array: &[u8],
    registers: &mut [u8],
    counts: &[u8],
    flags: &[u8],
) -> Result<Target, NotPowered>
    ensures { told result registers.new ≡ power_of page.now device array.now registers.old counts.now flags.now }
{
    if let Err(why) = power_answer(page, array.len(), registers.len(), counts, flags) {
        return Err(NotPowered {
            why,
            target: unpowered(),
        });
    }
    registers.fill(0xff);
    Ok(powered_of(page, device, counts, flags))
}
