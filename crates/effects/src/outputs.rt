// The output after an event.
ghost use Rattle.std.specs.Prelude.{◌≡◌, ◌<◌};
ghost use Rattle.target.specs.Place.{put_out};
ghost use Rattle.effects.specs.Effects.{ended_lun, ended_place, ended_output, shown, first_output, command_output, addressed_output, advanced, output_after, place_out};

use target::address::lun_of;
use target::commands::{Then, cycles_of, first_of, in_page, second_row, takes_row, then_of};
use target::events::{Kind, is_reset};
use target::place::{is_open, put_out};
use target::views::{Ended, Given, completed, ending};
use target::{Column, Decoder, Event, First, Geometry, Output, Sequence};

// The LUN whose register a second command puts out.
pub fn ended_lun(g: Geometry, selected: usize, k: Ended) -> usize
    ensures { result ≡ ended_lun g selected k }
{
    if takes_row(k.first) {
        lun_of(g, k.row)
    } else {
        selected
    }
}

// The register or the parameter page, from the column on.
pub fn ended_place(g: Geometry, selected: usize, k: Ended) -> Output
    ensures { result ≡ ended_place g selected k }
{
    if in_page(k.first) {
        Output::Parameters { at: k.column.0 }
    } else {
        Output::Register {
            lun: ended_lun(g, selected, k),
            column: k.column,
        }
    }
}

pub fn ended_output(g: Geometry, selected: usize, k: Option<Ended>) -> Output
    ensures { result ≡ ended_output g selected k }
{
    match k {
        Some(k) if second_row(k.second).shows => ended_place(g, selected, k),
        _ => Output::Nothing,
    }
}

pub fn shown(n: Then, l: usize, v: u8, o: Output) -> Output
    ensures { result ≡ shown n l v o }
{
    match n {
        Then::Second | Then::Data | Then::FeatureIn => o,
        Then::Status => Output::Status { lun: l },
        Then::Id if v == 0x00 => Output::Ids { at: 0 },
        Then::Id => Output::Signature { at: 0 },
        Then::ParameterPage => Output::Parameters { at: 0 },
        Then::FeatureOut => Output::Feature { at: 0 },
    }
}

pub fn first_output(selected: usize, k: Option<First>) -> Output
    ensures { result ≡ first_output selected k }
{
    match k {
        Some(f) if cycles_of(f) == 0 => shown(then_of(f), selected, 0, Output::Nothing),
        _ => Output::Nothing,
    }
}

pub fn command_output(g: Geometry, selected: usize, s: Sequence, v: u8) -> Output
    ensures { result ≡ command_output g selected s v }
{
    if is_open(s) {
        ended_output(g, selected, ending(s, v))
    } else {
        first_output(selected, first_of(v))
    }
}

pub fn addressed_output(g: Geometry, k: Option<Given>, o: Output) -> Output
    ensures { result ≡ addressed_output g k o }
{
    match k {
        Some(Given::Row(k)) => shown(then_of(k.first), lun_of(g, k.row), 0, o),
        Some(Given::Single(k)) => shown(then_of(k.first), 0, k.value, o),
        _ => o,
    }
}

pub fn advanced(o: Output) -> Output
    requires { place_out o < 65536 }
    ensures { result ≡ advanced o }
{
    match o {
        Output::Nothing | Output::Status { .. } => o,
        Output::Register { lun, column } => Output::Register {
            lun,
            column: Column(column.0 + 1),
        },
        Output::Parameters { at } => Output::Parameters { at: at + 1 },
        Output::Ids { at } => Output::Ids { at: at + 1 },
        Output::Signature { at } => Output::Signature { at: at + 1 },
        Output::Feature { at } => Output::Feature { at: at + 1 },
    }
}

#[tactic(auto, unfolding(crate::specs::Effects::output_after))]
pub fn output_after(g: Geometry, selected: usize, d: Decoder, e: Event) -> Output
    requires { place_out (put_out d) < 65536 }
    ensures { result ≡ output_after g selected d e }
{
    if is_reset(e) {
        return Output::Nothing;
    }
    match e.kind() {
        Some(Kind::Command) => command_output(g, selected, d.sequence, e.value),
        Some(Kind::Address) => addressed_output(g, completed(d.sequence, e.value), d.output),
        Some(Kind::DataOut) => advanced(put_out(d)),
        _ => d.output,
    }
}
