// The memory of the output that was open before a status, after an event.
#![tactic(auto)]

ghost use Rattle.std.specs.Prelude.{◌≡◌};
ghost use Rattle.memory.specs.Memory.{remembered, first_kept, command_kept, row_kept, addressed_kept, kept_after};

use target::address::lun_of;
use target::commands::{byte_of, first_of, gives_status};
use target::events::{Kind, is_reset};
use target::place::{is_bare, is_open, is_register_of, shows_status};
use target::views::{Given, completed};
use target::{Decoder, Event, First, Geometry, Output};

// What a status keeps.
pub fn remembered(d: Decoder) -> Output
    ensures { result ≡ remembered d }
{
    if shows_status(d.output) {
        d.kept
    } else {
        d.output
    }
}

pub fn first_kept(d: Decoder, k: Option<First>) -> Output
    ensures { result ≡ first_kept d k }
{
    match k {
        Some(f) if gives_status(f) => remembered(d),
        Some(f) if byte_of(f) == 0x00 && shows_status(d.output) => d.kept,
        _ => Output::Nothing,
    }
}

pub fn command_kept(d: Decoder, v: u8) -> Output
    ensures { result ≡ command_kept d v }
{
    if is_open(d.sequence) {
        d.kept
    } else {
        first_kept(d, first_of(v))
    }
}

pub fn row_kept(g: Geometry, k: Option<Given>, o: Output) -> Output
    ensures { result ≡ row_kept g k o }
{
    match k {
        Some(Given::Row(k)) if gives_status(k.first) && !is_register_of(lun_of(g, k.row), o) => {
            Output::Nothing
        }
        _ => o,
    }
}

pub fn addressed_kept(g: Geometry, d: Decoder, v: u8) -> Output
    ensures { result ≡ addressed_kept g d v }
{
    if is_bare(d.sequence) {
        Output::Nothing
    } else {
        row_kept(g, completed(d.sequence, v), d.kept)
    }
}

#[tactic(auto, unfolding(crate::specs::Memory::kept_after))]
pub fn kept_after(g: Geometry, d: Decoder, e: Event) -> Output
    ensures { result ≡ kept_after g d e }
{
    if is_reset(e) {
        return Output::Nothing;
    }
    match e.kind() {
        Some(Kind::Command) => command_kept(d, e.value),
        Some(Kind::Address) => addressed_kept(g, d, e.value),
        Some(Kind::DataOut) if is_bare(d.sequence) => Output::Nothing,
        _ => d.kept,
    }
}
