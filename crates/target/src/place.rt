// The place reached: what the open sequence and the open output take next.
ghost use Rattle.std.specs.Prelude.{◌≡◌};
ghost use Rattle.target.specs.Place.{is_open, is_ended, command_fits, takes_command, takes_address, is_taken, takes_data, is_bare, put_out, is_page, shows_status, is_register_of, first_here, has_output};

use crate::commands::{byte_of, first_of, is_first};
use crate::views::{Ended, Taker, ending, taking};
use crate::{Decoder, First, Output, Sequence};

pub fn is_open(s: Sequence) -> bool
    ensures { result ≡ is_open s }
{
    !matches!(s, Sequence::Idle)
}

pub fn is_ended(e: Option<Ended>) -> bool
    ensures { result ≡ is_ended e }
{
    e.is_some()
}

// The command byte, other than FFh, fits.
pub fn command_fits(s: Sequence, v: u8) -> bool
    ensures { result ≡ command_fits s v }
{
    if is_open(s) {
        is_ended(ending(s, v))
    } else {
        is_first(v)
    }
}

pub fn takes_command(s: Sequence, v: u8) -> bool
    ensures { result ≡ takes_command s v }
{
    v == 0xff || command_fits(s, v)
}

pub fn takes_address(s: Sequence) -> bool
    ensures { result ≡ takes_address s }
{
    matches!(
        s,
        Sequence::Columns(_) | Sequence::Rows(_) | Sequence::Single(_) | Sequence::Moving(_)
    )
}

pub fn is_taken(k: Option<Taker>) -> bool
    ensures { result ≡ is_taken k }
{
    k.is_some()
}

pub fn takes_data(s: Sequence) -> bool
    ensures { result ≡ takes_data s }
{
    is_taken(taking(s))
}

// 00h has come, and no address yet.
pub fn is_bare(s: Sequence) -> bool
    ensures { result ≡ is_bare s }
{
    match s {
        Sequence::Columns(k) => byte_of(k.first) == 0x00 && k.got == 0,
        _ => false,
    }
}

// What a data-out cycle gives.
pub fn put_out(d: Decoder) -> Output
    ensures { result ≡ put_out d }
{
    if is_bare(d.sequence) {
        d.kept
    } else {
        d.output
    }
}

pub fn is_page(o: Output) -> bool
    ensures { result ≡ is_page o }
{
    matches!(o, Output::Parameters { .. })
}

pub fn shows_status(o: Output) -> bool
    ensures { result ≡ shows_status o }
{
    matches!(o, Output::Status { .. })
}

// The LUN's page register is put out.
pub fn is_register_of(l: usize, o: Output) -> bool
    ensures { result ≡ is_register_of l o }
{
    match o {
        Output::Register { lun, .. } => lun == l,
        _ => false,
    }
}

// The first command that a byte is at this place: 05h moves within a parameter page that is open or kept.
pub fn first_here(d: Decoder, v: u8) -> Option<First>
    ensures { result ≡ first_here d v }
{
    if v == 0x05 && (is_page(d.output) || is_page(d.kept)) {
        Some(First::ChangeColumnInPage)
    } else {
        first_of(v)
    }
}

pub fn has_output(o: Output) -> bool
    ensures { result ≡ has_output o }
{
    !matches!(o, Output::Nothing)
}
