// The unread rest of the present output: a part of one of two lent slices, returned.
#![tactic(auto)]

ghost use Rattle.std.specs.Prelude.{◌≡◌, true};
ghost use Rattle.target.specs.Sizes.{in_limits};
ghost use Rattle.step.specs.Usable.{output_sound};
ghost use Rattle.unread.specs.Rest.{present, readable, unread_in, unread_of, rest_of};

use slices::part_of;
use step::usable::record_sound;
use target::place::is_bare;
use target::records::works;
use target::sizes::page_size;
use target::{Decoder, Geometry, Luns, Output, Target};

// Which lent buffer a part is of.
#[derive(Clone, Copy)]
pub enum Source {
    Registers,
    Parameters,
}

// A part: the `count` bytes of `source` from `at` on.
#[derive(Clone, Copy)]
pub struct Unread {
    pub source: Source,
    pub at: usize,
    pub count: usize,
}

// Rule 13 does not hold, of the record and these two lengths. The sizes are multiplied out only within the limits.
pub fn readable(t: Target, params: usize, registers: usize) -> bool
    ensures { result ≡ readable t params registers }
{
    if !record_sound(t) {
        return false;
    }
    let g = t.geometry;
    params == 256 && registers == g.luns * page_size(g)
}

fn unread_in(g: Geometry, luns: Luns, o: Output) -> Option<Unread>
    requires { (in_limits g ≡ true) × (output_sound g o ≡ true) }
    ensures { result ≡ unread_in g luns o }
{
    match o {
        Output::Register { lun, column } => {
            let p = page_size(g);
            if works(luns, lun) || p <= column.0 {
                return None;
            }
            Some(Unread {
                source: Source::Registers,
                at: lun * p + column.0,
                count: p - column.0,
            })
        }
        Output::Parameters { at } if at < 768 => Some(Unread {
            source: Source::Parameters,
            at: at % 256,
            count: 256 - at % 256,
        }),
        _ => None,
    }
}

// What is put out now; after a bare 00h an address may come yet.
fn present(d: Decoder) -> Output
    ensures { result ≡ present d }
{
    if is_bare(d.sequence) {
        Output::Nothing
    } else {
        d.output
    }
}

// Where the unread rest lies, from the lengths of the two buffers.
pub fn unread_part(t: Target, params: usize, registers: usize) -> Option<Unread>
    ensures { result ≡ unread_of t params registers }
{
    if !readable(t, params, registers) {
        return None;
    }
    unread_in(t.geometry, t.luns, present(t.decoder))
}

// The unread rest itself.
pub fn rest<'a>(t: Target, params: &'a [u8], registers: &'a [u8]) -> &'a [u8]
    ensures { result.now ≡ rest_of t params.now registers.now }
{
    match unread_part(t, params.len(), registers.len()) {
        None => &params[..0],
        Some(
            Unread {
                source: Source::Registers,
                at,
                count,
            },
        ) => part_of(registers, at, count),
        Some(
            Unread {
                source: Source::Parameters,
                at,
                count,
            },
        ) => part_of(params, at, count),
    }
}
